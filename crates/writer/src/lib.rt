// The settings file, written from the settings record and the schedule.
#![tactic(auto)]

mod count;
mod file;
mod pen;
mod sink;
mod writing;

pub use writing::write;
