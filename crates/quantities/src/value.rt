use crate::about::Quantity;

/// How many values a quantity has at most.
pub const VALUES: usize = 6;

/// Of how many quantities a message tells at most.
pub const MOST_TOLD: usize = 3;

/// What a payload says of a quantity.
#[derive(Clone, Copy)]
pub struct Value {
    pub quantity: Quantity,
    /// Its values in their order, and none behind the last.
    pub values: [Option<i64>; VALUES],
}

/// What a message says of the quantities.
#[derive(Clone, Copy)]
pub enum Told {
    /// Values of different quantities, in the order of the quantities.
    Values([Option<Value>; MOST_TOLD]),
    /// The parameter group is in no entry of the table.
    Outside,
    /// The payload is shorter than the parameter group's least length.
    Short,
}
