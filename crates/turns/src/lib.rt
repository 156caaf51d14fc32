// What every machine's turn and run are made of: the course of a processor, what a turn tells, how it is counted, and the run over a schedule.
#![tactic(auto)]

mod bits;
mod counts;
mod course;
mod machine;
mod made;
mod played;
mod playing;
mod processor;
mod says;
mod step;

pub use bits::{bit, with_bit};
pub use machine::{Machine, State};
pub use played::{Played, Stop};
pub use playing::play;
pub use processor::Processor;
pub use says::{Kind, Says, UnknownKind};
pub use step::Step;
