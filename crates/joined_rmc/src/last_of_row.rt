//! The last message of a row that was selected.
ghost use Rattle.std.specs.Prelude.{◌≡◌, None, Some, IfSome, if◌then◌else◌};
ghost use Rattle.readings.specs.Rows.{IsValid, row_of};
ghost use Rattle.history.specs.Settings.{same_row};
ghost use Rattle.gate_model.specs.AddressStands.{name_held};
ghost use Rattle.parts.specs.Picked.{IsMessageValid};
ghost use Rattle.joined_rmc.specs.Lasting.{unless_old};
ghost use Rattle.joined_rmc.specs.Kept.{none_yet, held_in, in_last, is_named, message_within, lent, last_held, last_with};

use n2k_id::Name;
use parts::{Gateway, SelectedMessage};
use readings::{Reading, Row, row};

/// The last message of a row that was selected, while its sender holds its address.
#[derive(Clone, Copy)]
pub struct LastOfRow {
    /// How long it counts, in milliseconds.
    pub timeout: u32,
    pub message: Option<SelectedMessage>,
}

impl LastOfRow {
    /// With nothing kept.
    pub fn new(timeout: u32) -> LastOfRow
        ensures { result ≡ none_yet timeout }
    {
        LastOfRow {
            timeout,
            message: None,
        }
    }

    /// Forgets a message whose sender lost its address.
    pub fn forget_lost(&mut self, gateway: &Gateway)
        requires { IsMessageValid self.old.message }
        ensures after { self.new ≡ last_held (name_held gateway.now.addresses.claims.holders) self.old }
        ensures valid { IsMessageValid self.new.message }
    {
        if is_lost(&self.message, gateway) {
            self.message = None;
        }
    }

    /// Keeps a newer message, where it is of the row.
    pub fn keep_newer(&mut self, row: Row, new: &SelectedMessage)
        requires message { IsMessageValid self.old.message }
        requires new { IsValid new.now.reading }
        ensures after { self.new ≡ last_with row (Some new.now) self.old }
        ensures valid { IsMessageValid self.new.message }
    {
        if is_of(new, row) {
            self.message = Some(*new);
        }
    }

    /// What it says at a moment.
    pub fn says(&self, moment: u64) -> Option<&Reading>
        requires { IsMessageValid self.now.message }
        ensures says { lent result ≡ in_last moment self.now }
        ensures valid { IfSome result (λ r. IsValid r.now) }
    {
        match &self.message {
            None => None,
            Some(message) => unless_old(self.timeout, moment, message),
        }
    }
}

/// Whether the message is of the row.
pub(crate) fn is_of(message: &SelectedMessage, other: Row) -> bool
    ensures { result ≡ same_row (row_of message.now.reading) other }
{
    row(&message.reading) as usize == other as usize
}

/// What the message says, where it isn't older at the moment than the timeout.
fn unless_old(timeout: u32, moment: u64, message: &SelectedMessage) -> Option<&Reading>
    requires { IsValid message.now.reading }
    ensures says { lent result ≡ unless_old timeout moment message.now.moment message.now.reading }
    ensures valid { IfSome result (λ r. IsValid r.now) }
{
    if moment.saturating_sub(message.moment) <= 1000 * u64::from(timeout) {
        Some(&message.reading)
    } else {
        None
    }
}

/// Whether a message is kept whose sender lost its address.
fn is_lost(message: &Option<SelectedMessage>, gateway: &Gateway) -> bool
    ensures { held_in (name_held gateway.now.addresses.claims.holders) message.now ≡ (if result then None else message.now) }
{
    let Some(message) = message else {
        return false;
    };
    !is_named(message.name, gateway.holder(message.source))
}

fn is_named(name: Name, holder: Option<Name>) -> bool
    ensures { result ≡ is_named name holder }
{
    match holder {
        None => false,
        Some(other) => other == name,
    }
}
