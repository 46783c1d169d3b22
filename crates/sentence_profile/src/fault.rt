/// Why a sentence gives no reading. Fields are counted from 1.
#[derive(Clone, Copy)]
pub enum FieldFault {
    /// The sentence is none of the profile.
    Outside,
    /// The first faulty field is missing, or isn't written as the sentence has it.
    Form(u8),
    /// The value of the first faulty field is one that its quantity doesn't have.
    Range(u8),
}
