ghost use Rattle.std.specs.Prelude.{◌≡◌, ◌<◌, All};

use claim_table::{ClaimFault, ClaimStep, ClaimTable, Holder, OwnAnswer, Preset};
use n2k_id::Name;
use std::alloc::Global;
use std::test::Fail;

/// The gateway: arbitrary address capable.
const OWN: Name = Name(0xC032_8200_FFC0_0001);

/// The same without the arbitrary address bit, and a smaller one.
const FIXED: Name = Name(0x4032_8200_FFC0_0001);

const SMALLER: Name = Name(0x4032_8200_FFC0_0000);

const SECOND: u64 = 1_000_000;

fn preset(address: u8, name: u64) -> Preset
    ensures { result.address ≡ address }
{
    Preset {
        address,
        name: Name(name),
    }
}

/// Whether the claim won and left no address, and the gateway answers nothing.
fn is_quiet(step: ClaimStep) -> bool {
    matches!(
        step,
        ClaimStep {
            lost: None,
            released: None,
            own: OwnAnswer::Silent,
        }
    )
}

/// Whether the claim won 20 from the NAME 0x60, and did nothing else.
fn is_won(step: ClaimStep) -> bool {
    matches!(
        step,
        ClaimStep {
            lost: Some((20, Name(0x60))),
            released: None,
            own: OwnAnswer::Silent,
        }
    )
}

/// Whether the holder is this NAME, since this index.
fn is_since(holder: Option<Holder>, name: Name, index: u64) -> bool {
    match holder {
        None => false,
        Some(holder) => holder.name == name && holder.since == index,
    }
}

#[test]
#[tactic(auto, using(claim_table::proofs::LawLemmas::since_grows))]
fn an_address_is_held_since_the_first_claim_of_its_holder(rt: HostRuntime) -> Result<(), Fail> {
    let mut table = ClaimTable::new(rt.alloc(), OWN, 10, &[])?;
    assert!(rt; is_quiet(table.claim(20, Name(0x60), 3, 3 * SECOND)));
    assert!(rt; is_quiet(table.claim(20, Name(0x60), 4, 4 * SECOND)));
    assert!(rt; is_since(table.holder(20), Name(0x60), 3));
    assert!(rt; is_won(table.claim(20, Name(0x40), 5, 5 * SECOND)));
    assert!(rt; is_since(table.holder(20), Name(0x40), 5));
    Ok(())
}

#[test]
fn nobody_is_ready_before_the_start_or_without_an_address(rt: HostRuntime) -> Result<(), Fail> {
    let mut table = ClaimTable::new(rt.alloc(), FIXED, 10, &[])?;
    table.start(SECOND / 2);
    assert!(rt; !table.ready(0));
    let _lost = table.claim(10, SMALLER, 0, SECOND);
    assert!(rt; !table.ready(u64::MAX));
    Ok(())
}

/// Why no table is made of these presets, or nothing.
fn refused(alloc: Global, presets: &[Preset]) -> Option<ClaimFault>
    requires { All (λ p. p.address < 254) presets.now }
{
    ClaimTable::new(alloc, OWN, 10, presets).err()
}

#[test]
fn presets_that_clash_are_refused(rt: HostRuntime) {
    let twice_by_address = [preset(20, 0x50), preset(20, 0x60)];
    let twice_by_name = [preset(20, 0x50), preset(21, 0x50)];
    let own_address = [preset(20, 0x50), preset(10, 0x60)];
    let own_name = [preset(20, OWN.0)];
    assert!(rt;
        matches!(
            refused(rt.alloc(), &twice_by_address),
            Some(ClaimFault::PresetTwice)
        )
    );
    assert!(rt;
        matches!(
            refused(rt.alloc(), &twice_by_name),
            Some(ClaimFault::PresetTwice)
        )
    );
    assert!(rt;
        matches!(
            refused(rt.alloc(), &own_address),
            Some(ClaimFault::OwnTaken)
        )
    );
    assert!(rt; matches!(refused(rt.alloc(), &own_name), Some(ClaimFault::OwnTaken)));
}

/// Whether the fault is said so.
fn is_said(alloc: Global, fault: ClaimFault, text: &str) -> bool {
    match format!(in alloc; "{}", fault) {
        Ok(said) => said.as_str() == text,
        Err(_) => false,
    }
}

#[test]
fn faults_say_what_is_wrong(rt: HostRuntime) {
    let twice = "two presets share an address or a NAME";
    let taken = "a preset has the gateway's own address or NAME";
    assert!(rt; is_said(rt.alloc(), ClaimFault::PresetTwice, twice));
    assert!(rt; is_said(rt.alloc(), ClaimFault::OwnTaken, taken));
}
