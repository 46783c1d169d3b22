use sentence_text::Sfi;
use std::test::Fail;
use tag_block::{GroupAssembler, GroupFed, GroupOutcome, GroupPart};

/// What becomes of a line.
#[derive(Clone, Copy)]
enum Told {
    Held,
    Restarted,
    Complete,
    Order,
    Full,
}

/// The sender, the place in its group, the sentence and the moment of each line, what becomes of it, and the sentences of the group that it completes.
const LINES: [(u8, (u8, u8, u16), &[u8], u64, Told, &[u8]); 16] = [
    (1, (1, 3, 7), b"$A1\r\n", 0, Told::Held, b""),
    (2, (1, 2, 7), b"$B1\r\n", 100, Told::Held, b""),
    (1, (2, 3, 7), b"$A2\r\n", 200, Told::Held, b""),
    (
        2,
        (2, 2, 7),
        b"$B2\r\n",
        300,
        Told::Complete,
        b"$B1\r\n$B2\r\n",
    ),
    (
        1,
        (3, 3, 7),
        b"$A3\r\n",
        750_200,
        Told::Complete,
        b"$A1\r\n$A2\r\n$A3\r\n",
    ),
    (1, (3, 3, 7), b"$A3\r\n", 750_300, Told::Order, b""),
    (1, (1, 2, 7), b"$A1\r\n", 750_400, Told::Held, b""),
    (1, (1, 2, 7), b"$A1\r\n", 750_500, Told::Restarted, b""),
    (1, (2, 3, 7), b"$A2\r\n", 750_600, Told::Order, b""),
    (1, (2, 2, 7), b"$A2\r\n", 750_700, Told::Order, b""),
    (1, (1, 3, 7), b"$A1\r\n", 750_800, Told::Held, b""),
    (1, (3, 3, 7), b"$A3\r\n", 750_900, Told::Order, b""),
    (1, (1, 2, 7), b"$A1\r\n", 751_000, Told::Held, b""),
    (1, (1, 2, 8), b"$A1\r\n", 751_100, Told::Held, b""),
    (2, (1, 2, 7), b"$B1\r\n", 751_200, Told::Full, b""),
    (
        1,
        (2, 2, 8),
        b"$A2\r\n",
        751_300,
        Told::Complete,
        b"$A1\r\n$A2\r\n",
    ),
];

/// Whether this becomes of a line of the sender `II0001` or `II0002`, of its number, the total and the code.
fn is_told(
    groups: &mut GroupAssembler,
    sender: u8,
    (number, total, code): (u8, u8, u16),
    sentence: &[u8],
    moment: u64,
    told: Told,
    wanted: &[u8],
) -> bool {
    let Some(sfi) = Sfi::of(if sender == 1 { b"II0001" } else { b"II0002" }) else {
        return false;
    };
    if total < 2 || total > 9 || number < 1 || number > total || sentence.len() > 120 {
        return false;
    }
    let part = GroupPart {
        number,
        total,
        code,
    };
    let GroupFed { restarted, outcome } = groups.feed(sfi, part, sentence, moment);
    match outcome {
        GroupOutcome::Held => match told {
            Told::Held => !restarted,
            Told::Restarted => restarted,
            _ => false,
        },
        GroupOutcome::Complete(view) => matches!(told, Told::Complete) && view.bytes == wanted,
        GroupOutcome::Order => matches!(told, Told::Order),
        GroupOutcome::Full => matches!(told, Told::Full),
    }
}

#[test]
fn two_senders_in_turn_complete_a_group_each(rt: HostRuntime) -> Result<(), Fail> {
    let mut groups = GroupAssembler::new(rt.alloc(), 2)?;
    for (sender, place, sentence, moment, told, wanted) in &LINES {
        assert!(rt;
            is_told(
                &mut groups,
                *sender,
                *place,
                sentence,
                *moment,
                *told,
                wanted
            )
        );
    }
    assert!(rt; groups.count() == 1);
    Ok(())
}
