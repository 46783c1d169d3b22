//! Lists in which nothing may stand twice.
ghost use Rattle.std.specs.Prelude.{◌≡◌, ◌≢◌, false};
ghost use Rattle.std.specs.List.{AllPairs};
ghost use Rattle.config_document.specs.Twice.{repeats};

/// Whether something stands twice in the list.
pub fn repeats<T: Eq>(list: &[T]) -> bool
    ensures value { result ≡ repeats T.eq list.now }
    ensures apart { result ≡ false → AllPairs (λ x y. x ≢ y) list.now }
{
    let mut rest = list;
    while let [first, others @ ..] = rest {
        if others.contains(first) {
            return true;
        }
        rest = others;
    }
    false
}
