//! What is promised of all answers. Each law is a function that does nothing, and whose clauses are the law.
ghost use Rattle.bus_identity.specs.Laws.{ListsAreOfTheRows, MessagesAreHeard, OthersHaveNone, RequestsHaveOneAnswer, SequencesCount};

/// Each request that has to be answered has exactly its one answer where the gateway is ready: product information, both lists, or
/// the refusal of what it alone was asked for. No other frame has one, and nothing is sent before the gateway is ready.
pub fn each_due_request_has_one_answer()
    ensures due { RequestsHaveOneAnswer }
    ensures others { OthersHaveNone }
{}

/// Who hears the frames of a message hears whom they are from and for, and joins exactly that message from them.
pub fn messages_are_heard()
    ensures { MessagesAreHeard }
{}

/// After any list of frames the sequence of the next message is the number of messages of its kind that were sent, modulo 8.
pub fn sequences_count_messages()
    ensures { SequencesCount }
{}

/// The lists of parameter groups rise, and have those of each row that is sent or taken in.
pub fn lists_are_of_the_rows()
    ensures { ListsAreOfTheRows }
{}
