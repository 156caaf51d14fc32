// What a run over a schedule gives, in plain numbers.
ghost use Rattle.std.specs.Prelude.{◌≡◌};
ghost use Rattle.turns.specs.Stopping.{stop_number};

// Why the run ended: the schedule is used up, or the next turn would be past the budget.
#[derive(Clone, Copy, Debug, PartialEq, Eq)]
pub enum Stop {
    UsedUp = 0,
    Budget = 1,
}

// taken: turns. events: how many. sums: six numbers for each processor, in one plain row (document 01: the core works over these).
#[derive(Clone, Copy)]
pub struct Played {
    pub stop: Stop,
    pub taken: usize,
    pub events: usize,
    pub total: u32,
    pub sums: [u16; 384],
}

impl From<Stop> for u8 {
    ghost from_gives = { λ s n. n ≡ stop_number s };

    fn from(s: Stop) -> u8 {
        s as u8
    }
}
