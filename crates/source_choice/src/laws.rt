//! What is promised of the notes of a subject: they are a map from source to note. Each law is a function that does nothing, and whose
//! clause is the law.
ghost use Rattle.source_choice.specs.Laws.{ForgottenIsGone, NotedIsFound, OthersAreKept, OthersStayNoted};

/// What a source said last is what is found of it, and what was noted of others stays; after it is forgotten nothing is found of it,
/// and what was noted of others stays.
#[tactic(auto, using(crate::proofs::NoteLemmas::noted_here, crate::proofs::NoteLemmas::others_noted, crate::proofs::NoteLemmas::forgotten_here, crate::proofs::NoteLemmas::others_forgotten))]
pub fn notes_are_a_map()
    ensures noted { NotedIsFound }
    ensures stay { OthersStayNoted }
    ensures gone { ForgottenIsGone }
    ensures kept { OthersAreKept }
{}
