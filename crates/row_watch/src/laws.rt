//! What is promised of rows under watch besides. Each law is a function that does nothing, and whose clause is the law.
ghost use Rattle.row_watch.specs.WatchLaws.{AlertsAreSentences, RowsAreApart, ToldIsTheState};

/// What was told last of a row is its state: it is silent exactly where the last report says that it isn't said. Where there is no report it
/// isn't silent. It is so of rows that are apart, and those that are configured are.
pub fn what_is_told_is_the_state()
    ensures told { ToldIsTheState }
    ensures apart { RowsAreApart }
{}

/// Each alert is one sentence of at most 82 bytes, which is read as its parts.
pub fn alerts_are_sentences()
    ensures { AlertsAreSentences }
{}
