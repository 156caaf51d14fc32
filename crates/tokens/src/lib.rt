// A label, a name or a number, read from a place of a file on.
#![tactic(auto)]

mod fault;
mod names;
mod numbers;
mod place;

pub use fault::Fault;
pub use numbers::Numeral;
pub use place::Place;
