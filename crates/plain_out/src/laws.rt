//! What is promised of plain datagrams besides. Each law is a function that does nothing, and whose clause is the law.
ghost use Rattle.plain_out.specs.PaceLaws.{LastIsKept, LossesAreTold, StreamsPause};
ghost use Rattle.plain_out.specs.Laws.{LinesAreRead, SentencesStay, WhatIsReadStays};

/// A datagram that is its header and lines, each of TAG blocks and a sentence, is read as these sentences, in their order, and as nothing else.
pub fn lines_are_read()
    ensures { LinesAreRead }
{}

/// Of a datagram that is read as sentences, these sentences stay.
pub fn what_is_read_stays()
    ensures { WhatIsReadStays }
{}

/// Of a datagram that is its header and lines, each of TAG blocks and a sentence, these sentences stay, in their order.
pub fn sentences_stay()
    ensures { SentencesStay }
{}

/// Of two datagrams of a stream that are passed on within its pause, with none between, the later one lacks something that the earlier one said.
/// After each datagram of the stream it says all that the last one said that was passed on. What is kept of a stream is of that last one.
pub fn streams_pause()
    ensures pause { StreamsPause }
    ensures told { LossesAreTold }
    ensures last { LastIsKept }
{}
