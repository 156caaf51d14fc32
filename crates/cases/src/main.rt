// Plays the cases of standard input over `tallies` and prints what each gave; tools/cases makes the input and what has to come out.
// Numbers: how many cases; for each the room for events, the records that are lent, the settings, the number of turns, and a row that is
// said over and over until there are that many. `touched` is printed where a run broke what document 01 says of lent memory.
#![tactic(auto)]

mod stored;

use input::{Given, WIDTH, read_full};
use lines::Run;
use machine::{Record, Tallied, tallies};
use settings::MOST_PROCS;
use stored::{TURNS, stored_settings, stored_turns};

const MOST_BYTES: usize = 300000;

const ROOM: usize = 33000;

// A number that no run leaves.
const MARK: u16 = 9999;

const MARKED: Record = Record {
    done: MARK,
    remote: MARK,
    most: MARK,
    spins: MARK,
    idle: MARK,
};

// The records and events that had to be written are printed; the rest had to stay. What cannot be printed is left out.
fn show(rt: &impl Print, t: Tallied, procs: usize, events: &[u16]) {
    let (records, written) = t.answer.map_or((0, 0), |answer| (procs, answer.events));
    let (table, other_records) = t.table.split_at(records.min(MOST_PROCS));
    let (events, other_events) = events.split_at(written.min(events.len()));
    let _ = match t.answer {
        Ok(answer) => rt.print(Run {
            answer,
            table,
            events,
        }),
        Err(refusal) => println!(rt; "refused={}", u8::from(refusal)),
    };
    if other_records.iter().any(|r| *r != MARKED) || other_events.iter().any(|e| *e != MARK) {
        let _ = println!(rt; "touched");
    }
}

fn play(rt: &impl Print, given: &mut Given<'_>) {
    let mut schedule = [0u16; TURNS];
    let mut events = [MARK; ROOM];
    let room = given.size().min(ROOM);
    let records = given.size();
    let settings = stored_settings(given);
    let schedule = stored_turns(given, &mut schedule);
    let events = &mut events[..room];
    let t = tallies(settings, schedule, events, [MARKED; MOST_PROCS], records);
    show(rt, t, settings.procs as usize, events);
}

fn main(rt: HostRuntime) {
    let mut input = [0u8; MOST_BYTES];
    let input = read_full(&rt, &mut input);
    let mut given = Given::new(&input[..input.len() / WIDTH * WIDTH]);
    for k in 0..given.size() {
        let _ = println!(rt; "case={k}");
        play(&rt, &mut given);
    }
}
