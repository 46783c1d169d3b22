/// What a message tells.
#[derive(Clone, Copy)]
pub struct Told {
    /// The number of its subject.
    pub subject: usize,
    /// Whether the values are there without which it says nothing of the subject.
    pub usable: bool,
}
