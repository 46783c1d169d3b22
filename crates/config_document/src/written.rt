//! What is written as a text.
ghost use Rattle.std.specs.Prelude.{◌≡◌, ℕ, List, IfSome, Option};

/// What is written as a text.
pub trait Written: Sized {
    /// What a text says.
    ghost said_by: { List ℕ → Option Self };

    /// What holds of all that a text says.
    ghost is_valid: { Self → Type 0 };

    /// What the text says; none where it has another form.
    fn of(text: &[u8]) -> Option<Self>
        ensures said { result ≡ said_by text.now }
        ensures valid { IfSome result is_valid };
}
