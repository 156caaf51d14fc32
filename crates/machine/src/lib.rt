// The run over a schedule.
#![tactic(auto)]

mod decide;
mod running;
mod table;

pub use running::{Answer, Tallied, run, tallies};
pub use table::Record;
pub use turns::Stop;
