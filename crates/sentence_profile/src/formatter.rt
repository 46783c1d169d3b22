ghost use Rattle.std.specs.Prelude.{◌≡◌};
ghost use Rattle.sentence_profile.specs.Reading.{formatter_of, is_wanted, name_of};

use crate::optional::OptionalSentences;

/// The sentences that may be read, by the last three characters of their address.
#[derive(Clone, Copy)]
pub enum Formatter {
    Hdt,
    Hdg,
    Rot,
    Rsa,
    Vhw,
    Dpt,
    Dbt,
    Vlw,
    Gll,
    Vtg,
    Gga,
    Zda,
    Mwv,
    Mwd,
    Mtw,
    Xte,
    Ths,
    Rmc,
}

const ALL: [Formatter; 18] = [
    Formatter::Hdt,
    Formatter::Hdg,
    Formatter::Rot,
    Formatter::Rsa,
    Formatter::Vhw,
    Formatter::Dpt,
    Formatter::Dbt,
    Formatter::Vlw,
    Formatter::Gll,
    Formatter::Vtg,
    Formatter::Gga,
    Formatter::Zda,
    Formatter::Mwv,
    Formatter::Mwd,
    Formatter::Mtw,
    Formatter::Xte,
    Formatter::Ths,
    Formatter::Rmc,
];

impl Formatter {
    fn name(self) -> [u8; 3]
        ensures { result ≡ name_of self }
    {
        match self {
            Formatter::Hdt => *b"HDT",
            Formatter::Hdg => *b"HDG",
            Formatter::Rot => *b"ROT",
            Formatter::Rsa => *b"RSA",
            Formatter::Vhw => *b"VHW",
            Formatter::Dpt => *b"DPT",
            Formatter::Dbt => *b"DBT",
            Formatter::Vlw => *b"VLW",
            Formatter::Gll => *b"GLL",
            Formatter::Vtg => *b"VTG",
            Formatter::Gga => *b"GGA",
            Formatter::Zda => *b"ZDA",
            Formatter::Mwv => *b"MWV",
            Formatter::Mwd => *b"MWD",
            Formatter::Mtw => *b"MTW",
            Formatter::Xte => *b"XTE",
            Formatter::Ths => *b"THS",
            Formatter::Rmc => *b"RMC",
        }
    }

    /// The formatter of this name.
    #[tactic(auto, unfolding(crate::specs::Reading::formatter_of))]
    pub fn of(text: &[u8]) -> Option<Formatter>
        ensures { result ≡ formatter_of text.now }
    {
        ALL.iter().copied().find(|f| f.name().as_slice() == text)
    }

    /// Whether its sentences are read.
    pub fn is_wanted(self, optional: OptionalSentences) -> bool
        ensures { result ≡ is_wanted optional self }
    {
        match self {
            Formatter::Rmc => optional.rmc,
            Formatter::Dbt => optional.dbt,
            _ => true,
        }
    }
}
