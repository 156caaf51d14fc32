// Standard input, and what stands in it: numbers in columns, and rows of bytes.
#![tactic(auto)]

mod given;
mod reading;

pub use given::{Given, WIDTH};
pub use reading::read_full;
