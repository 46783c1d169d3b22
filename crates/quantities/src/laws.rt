//! What is promised of the tables. Each law is a function that does nothing, and whose clause is the law.
ghost use Rattle.quantities.specs.Laws.{EachIsInOrder, EachIsInRange, EachIsRead, EachIsSaid, TheTablesAreSound};

/// The table of payloads and that of sentences pass the test that the other laws rest on.
pub fn the_tables_are_sound()
    ensures { TheTablesAreSound }
{}

/// Each value that a table gives is in its range.
pub fn each_value_is_in_its_range()
    ensures { EachIsInRange }
{}

/// Each value of a sound table is said in one sentence of IEC 61162-1 of at most 82 bytes.
pub fn each_value_is_said_in_a_sentence()
    ensures { EachIsSaid }
{}

/// No two entries of a sound table give the value at one place of a payload, or differ in how a parameter group comes.
pub fn each_payload_is_of_one_entry()
    ensures { EachIsRead }
{}

/// The values of a payload by a sound table are of different quantities, in the order of the quantities.
pub fn values_are_in_order()
    ensures { EachIsInOrder }
{}
