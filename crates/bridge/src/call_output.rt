//! What the gateway itself gives at a call of the bridge.
ghost use Rattle.std.specs.Prelude.{◌≡◌, ◌≤◌, ◌+◌, ◌++◌, length, option_map, slice_get, IfOk, IfSome};
ghost use Rattle.gate_events.specs.Emit.{CanWrite};
ghost use Rattle.gate_outbox.specs.Output.{emit_of, emits_of};
ghost use Rattle.parts.specs.PartSteps.{most_output};
ghost use Rattle.bridge.specs.Kept.{given_count, no_output, ordered_output, own_output};

use gate_core::Outbox;
use gate_events::Emit;
use parts::Parts;
use plain_out::PlainEmits;
use std::alloc::{AllocError, Global};

/// What the gateway itself gives at a call, and its datagram once more as plain sentences.
#[derive(Drop)]
pub(crate) struct CallOutput {
    pub(crate) outbox: Outbox,
    /// How many of its emits, at its end, the command gave that the event completed.
    pub(crate) ordered: usize,
    pub(crate) plain: PlainEmits,
}

impl CallOutput {
    /// Nothing, in a place of its own. Most of it is zeros, which are written there: the stack doesn't have it while it is made.
    #[inline(never)]
    pub(crate) fn boxed(alloc: Global) -> Result<Box<CallOutput>, AllocError>
        ensures { IfOk result (λ b. b.value ≡ no_output) }
    {
        Ok(Box::new(
            alloc,
            CallOutput {
                outbox: Outbox::new(),
                ordered: 0,
                plain: PlainEmits::new(),
            },
        )?)
    }

    /// How many emits the gateway itself gave at the event.
    #[inline(always)]
    pub(crate) fn own_len(&self) -> usize
        ensures { result ≡ given_count self.now }
    {
        self.outbox.len().saturating_sub(self.ordered)
    }

    /// The emit at this place of what the command gave.
    #[tactic(auto, using(crate::proofs::Places::get_dropped))]
    fn emit_ordered(&self, place: usize) -> Option<Emit<'_>>
        requires { given_count self.now + place ≤ 18446744073709551615 }
        ensures emit { option_map emit_of result ≡ slice_get (ordered_output self.now) place }
        ensures valid { IfSome result CanWrite }
    {
        self.outbox.item(self.own_len() + place)
    }
}

/// How many emits a call left, of the gateway itself and of these parts.
#[inline(always)]
pub(crate) fn len_in<P: Parts>(parts: &P, output: &CallOutput) -> usize
    requires { P.most ≤ most_output }
    ensures { result ≡ length (own_output output.now
        ++ (P.output parts.now ++ ((emits_of output.now.plain ++ P.plain parts.now) ++ ordered_output output.now))) }
{
    output.outbox.len() + len_beside(parts, output)
}

/// The emit at this place of all that a call left, of the gateway itself and of these parts.
#[inline(always)]
pub(crate) fn emit_in<'a, P: Parts>(
    parts: &'a P,
    output: &'a CallOutput,
    place: usize,
) -> Option<Emit<'a>>
    requires { P.most ≤ most_output }
    ensures emit { option_map emit_of result ≡ slice_get (own_output output.now
        ++ (P.output parts.now ++ ((emits_of output.now.plain ++ P.plain parts.now) ++ ordered_output output.now))) place }
    ensures valid { IfSome result CanWrite }
{
    match place.checked_sub(output.own_len()) {
        None => output.outbox.item(place),
        Some(place) => emit_beside(parts, output, place),
    }
}

/// How many emits these parts gave, and plain sentences.
#[inline(never)]
pub(crate) fn len_beside<P: Parts>(parts: &P, output: &CallOutput) -> usize
    requires { P.most ≤ most_output }
    ensures len { result ≡ length (P.output parts.now) + length (emits_of output.now.plain) + length (P.plain parts.now) }
    ensures few { result ≤ 1000000 }
{
    parts.len() + output.plain.len() + parts.plain_len()
}

/// The emit at this place behind those that the gateway itself gave at the event. Nearly all are its own: these are kept apart from them.
#[inline(never)]
pub(crate) fn emit_beside<'a, P: Parts>(
    parts: &'a P,
    output: &'a CallOutput,
    place: usize,
) -> Option<Emit<'a>>
    requires most { P.most ≤ most_output }
    requires small { given_count output.now + place ≤ 18446744073709551615 }
    ensures emit { option_map emit_of result
        ≡ slice_get (P.output parts.now ++ ((emits_of output.now.plain ++ P.plain parts.now) ++ ordered_output output.now)) place }
    ensures valid { IfSome result CanWrite }
{
    match place.checked_sub(parts.len()) {
        None => parts.item(place),
        Some(place) => emit_plain(parts, output, place),
    }
}

/// The emit at this place behind those of the parts: a plain datagram, or what the command gave.
fn emit_plain<'a, P: Parts>(parts: &'a P, output: &'a CallOutput, place: usize) -> Option<Emit<'a>>
    requires most { P.most ≤ most_output }
    requires small { given_count output.now + place ≤ 18446744073709551615 }
    ensures emit { option_map emit_of result ≡ slice_get ((emits_of output.now.plain ++ P.plain parts.now) ++ ordered_output output.now) place }
    ensures valid { IfSome result CanWrite }
{
    let Some(place) = place.checked_sub(output.plain.len()) else {
        return output.plain.item(place);
    };
    match place.checked_sub(parts.plain_len()) {
        None => parts.plain_item(place),
        Some(place) => output.emit_ordered(place),
    }
}
