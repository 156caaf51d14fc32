// The settings record.
use crate::bounds::MOST_PROCS;

// The types are wider than the bounds, and algo is a number and no Algo, so that every refusal can be given. rounds and hold are two
// rows, as the rules have them.
#[derive(Clone, Copy, Debug, PartialEq, Eq)]
pub struct Settings {
    pub algo: u16,
    pub procs: u16,
    pub home: u16,
    pub ticket: u32,
    pub budget: u32,
    pub rounds: [u16; MOST_PROCS],
    pub hold: [u16; MOST_PROCS],
}
