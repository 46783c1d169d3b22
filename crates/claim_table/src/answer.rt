use n2k_id::Name;

/// Who holds an address.
#[derive(Clone, Copy)]
pub struct Holder {
    pub name: Name,
    /// The index of the claim since which the NAME holds the address; 0 for a preset.
    pub since: u64,
}

/// What a claim changed, and what the gateway answers.
#[derive(Clone, Copy)]
pub struct ClaimStep {
    /// The address that the claim won from another NAME, and that NAME.
    pub lost: Option<(u8, Name)>,
    /// The address that the claiming NAME left.
    pub released: Option<u8>,
    pub own: OwnAnswer,
}

/// What the gateway does about its own address.
#[derive(Clone, Copy)]
pub enum OwnAnswer {
    /// Nothing: the claim isn't about the own address.
    Silent,
    /// It sends its claim again: its NAME is the smaller one.
    Defend,
    /// It has lost its address and claims this one.
    Move(u8),
    /// It has lost its address, or has none, and sends cannot claim.
    CannotClaim,
    /// Nothing, but another device claims with the gateway's own NAME.
    Duplicate,
}
