// The settings file: read, and written.
#![tactic(auto)]

pub use reader::{Reading, read};
pub use tokens::Fault;
pub use writer::write;
