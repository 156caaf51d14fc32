// The lines of a file that is refused.
use std::fmt;
use tokens::Fault;

#[derive(Clone, Copy)]
pub struct Refused(pub Fault);

impl fmt::Display for Refused {
    fn fmt<W: fmt::Write>(&self, f: &mut fmt::Formatter<W>) -> fmt::Result {
        let Refused(Fault { refusal, place }) = *self;
        writeln!(f, "refused={}\nplace={place}", u8::from(refusal))
    }
}
