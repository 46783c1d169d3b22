//! What is promised of heartbeats over whole histories. Each law is a function that does nothing, and whose clause is the law.
ghost use Rattle.heartbeats.specs.Laws.{FramesAreReady, FramesKeepToGrid, HbtIsDue, HbtKeepsToGrid};

/// An event gives one HBT exactly if a due moment lies after the event before it and not after itself, and never two.
pub fn hbt_is_due()
    ensures { HbtIsDue }
{}

/// An event gives one frame of PGN 126993 exactly if a due moment lies so, and the gateway was ready at the last such moment; and never two.
pub fn frames_are_ready()
    ensures { FramesAreReady }
{}

/// Between two entries there are no more HBT than intervals that begin: none is made up for a moment at which no event came.
pub fn hbt_keeps_to_grid()
    ensures { HbtKeepsToGrid }
{}

/// The same of the frames.
pub fn frames_keep_to_grid()
    ensures { FramesKeepToGrid }
{}
