// Why a call is refused, with document 01's numbers.
ghost use Rattle.std.specs.Prelude.{◌≡◌};
ghost use Rattle.settings.specs.Numbers.{refusal_number};

use std::error::Error;
use std::fmt;

#[derive(Clone, Copy, Debug, PartialEq, Eq)]
pub enum Refusal {
    // The bytes leave the form of a file.
    Malformed = 1,
    // A name or number of no machine.
    Unknown = 2,
    // A value outside its range, or an entry past procs that is not zero.
    Outside = 3,
    // A turn names a processor not below procs.
    Stray = 4,
    // Of turns.
    TooMany = 5,
    // A lent buffer is too short.
    TooShort = 6,
}

impl From<Refusal> for u8 {
    ghost from_gives = { λ r n. n ≡ refusal_number r };

    fn from(r: Refusal) -> u8 {
        r as u8
    }
}

impl fmt::Display for Refusal {
    fn fmt<W: fmt::Write>(&self, f: &mut fmt::Formatter<W>) -> fmt::Result {
        f.write_str(match self {
            Refusal::Malformed => "the bytes leave the form of a settings file",
            Refusal::Unknown => "unknown machine",
            Refusal::Outside => "a value is outside its range",
            Refusal::Stray => "a turn names a processor that is not below procs",
            Refusal::TooMany => "too many turns",
            Refusal::TooShort => "a lent buffer is too short",
        })
    }
}

impl Error for Refusal {}
