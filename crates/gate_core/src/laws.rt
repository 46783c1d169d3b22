//! What is promised of the gateway. Each law is a function that does nothing, and whose clauses are the law.
ghost use Rattle.std.specs.Prelude.{◌≡◌, ℕ, List, Option, Some};
ghost use Rattle.readings.specs.Rows.{row_of};
ghost use Rattle.pgn_profile.specs.Profiled.{pgn_of};
ghost use Rattle.history.specs.Settings.{Settings};
ghost use Rattle.history.specs.NetReadings.{NetReading, next_sequence};
ghost use Rattle.history.specs.FromNet.{sent_from};
ghost use Rattle.row_traffic.specs.Sending.{reading_frames};

/// A reading from the network goes out in the frames that the definition over all that ever came says, with the sequence that it says.
pub fn readings_go_out_so()
    ensures { (c : Settings) (own : Option ℕ) (address : ℕ) (older : List NetReading) (n : NetReading)
        → sent_from c own (Some address) older n ≡ reading_frames address (next_sequence c older (pgn_of (row_of n.reading))) n.reading }
{}
