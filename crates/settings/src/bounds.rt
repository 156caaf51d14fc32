// The bounds of document 01, as in rules/specs/Bounds.
pub const LEAST_PROCS: u16 = 1;

pub const MOST_PROCS: usize = 64;

pub const MOST_TICKET: u32 = 65535;

pub const MOST_BUDGET: u32 = 16384;

pub const MOST_ROUNDS: u16 = 1000;

pub const MOST_HOLD: u16 = 255;

pub const MOST_TURNS: usize = 16384;
