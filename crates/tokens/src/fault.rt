// Why a file is refused, and where.
use settings::Refusal;
use std::error::Error;
use std::fmt;

#[derive(Clone, Copy, Debug, PartialEq, Eq)]
pub struct Fault {
    pub refusal: Refusal,
    // Of a byte of the file; 0 where the lent schedule is too short.
    pub place: usize,
}

impl fmt::Display for Fault {
    fn fmt<W: fmt::Write>(&self, f: &mut fmt::Formatter<W>) -> fmt::Result {
        write!(f, "{} (byte {})", self.refusal, self.place)
    }
}

impl Error for Fault {}
