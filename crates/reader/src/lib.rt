// The settings file, read into the settings record and the schedule.
#![tactic(auto)]

mod front;
mod head;
mod lines;
mod reading;
mod schedule;

pub use reading::{Reading, read};
