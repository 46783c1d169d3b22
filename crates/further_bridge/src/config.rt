//! From whom further quantities are taken, and who says them.
ghost use Rattle.std.specs.Prelude.{◌≡◌, All, IfOk, IsTrue, length, map};
ghost use Rattle.std.specs.List.{list_all};
ghost use Rattle.sentence_text.specs.Byte.{is_capital};
ghost use Rattle.quantities.specs.About.{number_of};
ghost use Rattle.settings.specs.Setup.{IsQuantity};
ghost use Rattle.source_choice.specs.SubjectRules.{rank_of};
ghost use Rattle.further_bridge.specs.FurtherRule.{further_rule, rule_at, rule_of_quantity, talker_at};

use arrayvec::ArrayVec;
use n2k_id::{Name, Pattern};
use quantities::{QUANTITIES, Quantity};
use sentence_text::Group;
use settings::{Quantities, QuantityConfig};
use source_choice::{Rank, rank_of};
use std::alloc::AllocError;

/// How further quantities are said, and the devices that none is taken from, though they be listed or others be taken.
#[derive(Drop)]
pub(crate) struct FurtherConfig {
    pub(crate) quantities: Quantities,
    pub(crate) ignored: ArrayVec<Pattern, 16>,
}

impl FurtherConfig {
    /// A copy of these quantities, beside the devices that none is taken from.
    #[tactic(auto, using(std::proofs::lemmas::List::Elements::same_from_all_zip))]
    pub(crate) fn copy_of(
        quantities: &Quantities,
        ignored: &ArrayVec<Pattern, 16>,
    ) -> Result<FurtherConfig, AllocError>
        ensures { IfOk result (λ copy. copy ≡ record { quantities = quantities.now; ignored = ignored.now }) }
    {
        Ok(FurtherConfig {
            quantities: quantities.clone()?,
            ignored: ignored.clone()?,
        })
    }

    /// How a quantity is taken and said.
    #[tactic(auto, using(crate::proofs::Rules::rules_are_by_number, crate::proofs::Rules::talkers_are_by_number))]
    fn quantity(&self, quantity: Quantity) -> &QuantityConfig
        ensures rule { rule_of_quantity self.now.ignored.items result.now
            ≡ rule_at (further_rule self.now.ignored.items self.now.quantities) (number_of quantity) }
        ensures talker { result.now.talker ≡ talker_at (further_rule self.now.ignored.items self.now.quantities) (number_of quantity) }
        ensures valid { All IsQuantity self.now.quantities.each → IsQuantity result.now }
    {
        self.quantities.each.get(quantity)
    }

    /// The rank of a NAME in the quantity.
    pub(crate) fn rank(&self, quantity: Quantity, name: Name) -> Option<Rank>
        ensures { result ≡ rank_of (rule_at (further_rule self.now.ignored.items self.now.quantities) (number_of quantity)) name.0 }
    {
        let taken = self.quantity(quantity);
        rank_of(&taken.sources, taken.others, &self.ignored, name)
    }

    /// The talker of the quantity's sentence.
    pub(crate) fn talker(&self, quantity: Quantity) -> [u8; 2]
        requires { All IsQuantity self.now.quantities.each }
        ensures talker { result ≡ talker_at (further_rule self.now.ignored.items self.now.quantities) (number_of quantity) }
        ensures capitals { IsTrue (list_all is_capital result) }
    {
        self.quantity(quantity).talker
    }

    /// Whether the boat has two engines.
    #[tactic(auto, unfolding(crate::specs::FurtherRule::further_rule))]
    pub(crate) fn twin_engines(&self) -> bool
        ensures { result ≡ (further_rule self.now.ignored.items self.now.quantities).twin }
    {
        self.quantities.twin_engines
    }

    /// The transmission group.
    #[tactic(auto, unfolding(crate::specs::FurtherRule::further_rule))]
    pub(crate) fn group(&self) -> Group
        ensures { result ≡ (further_rule self.now.ignored.items self.now.quantities).group }
    {
        self.quantities.group
    }
}

/// How long a source of each quantity counts, in milliseconds.
pub(crate) fn timeouts_of(each: &[QuantityConfig]) -> [u32; QUANTITIES]
    requires { length each.now ≡ QUANTITIES }
    ensures { result ≡ map (λ q. q.timeout_ms) each.now }
{
    let mut timeouts = [0; QUANTITIES];
    for number in 0..QUANTITIES {
        timeouts[number] = each[number].timeout_ms;
    }
    timeouts
}
