// The settings and the schedule of a case.
use input::{Given, WIDTH};
use settings::{MOST_PROCS, Settings};

// More than document 01 allows, so that too many turns can be tried.
pub const TURNS: usize = 16400;

// A count, and so many entries; the others are 0. What is past the row is passed over.
fn entries(given: &mut Given<'_>) -> [u16; MOST_PROCS] {
    let mut row = [0u16; MOST_PROCS];
    let count = given.size();
    let mut entries = Given::new(given.bytes(count * WIDTH));
    for entry in row.iter_mut().take(count) {
        *entry = entries.small();
    }
    row
}

pub fn stored_settings(given: &mut Given<'_>) -> Settings {
    Settings {
        algo: given.small(),
        procs: given.small(),
        home: given.small(),
        ticket: given.number(),
        budget: given.number(),
        rounds: entries(given),
        hold: entries(given),
    }
}

// Fills a lent row, and answers as many of its first places as there are turns. Where no number is to be said over and over, it is the next one.
pub fn stored_turns<'a>(given: &mut Given<'_>, schedule: &'a mut [u16; TURNS]) -> &'a [u16] {
    let turns = given.size().min(TURNS);
    let count = given.size();
    let said = given.left;
    given.bytes(count * WIDTH);
    let schedule = &mut schedule[..turns];
    for (k, turn) in schedule.iter_mut().enumerate() {
        let at = k % count.max(1) * WIDTH;
        *turn = Given::new(said.get(at..).unwrap_or(b"")).small();
    }
    schedule
}
