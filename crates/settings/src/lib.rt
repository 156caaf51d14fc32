// The settings record, the machines and refusals that it can name, and the one check of settings and schedule that write and run share.
#![tactic(auto)]

mod algo;
mod bounds;
mod check;
mod record;
mod refusal;
mod trial;

pub use algo::Algo;
pub use bounds::{
    LEAST_PROCS, MOST_BUDGET, MOST_HOLD, MOST_PROCS, MOST_ROUNDS, MOST_TICKET, MOST_TURNS,
};
pub use check::checked;
pub use record::Settings;
pub use refusal::Refusal;
pub use trial::Trial;
