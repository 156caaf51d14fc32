// The lines that document 01 names, as they are printed.
#![tactic(auto)]

mod refused;
mod run;

pub use refused::Refused;
pub use run::Run;
