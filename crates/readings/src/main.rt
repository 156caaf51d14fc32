// Reads the files of standard input by `text::read` and prints what each gave; tools/readings makes the input and what has to come out.
// The input: how many files; for each five numbers (the schedule's room, and the lengths of head, row, middle and tail), then the bytes
// of head, row and tail, and a line feed. `touched` is printed where a reading broke what document 01 says of the lent schedule, and
// `not back` where an accepted file is not written as it was read.
#![tactic(auto)]

mod back;
mod stored;
mod sum;

use back::is_back;
use input::{Given, read_full};
use lines::Refused;
use stored::{MOST_LENGTH, stored_file};
use sum::sum;
use text::{Fault, Reading, read};

const MOST_BYTES: usize = 400000;

// More than document 01 allows, so that too many turns can be tried.
const MOST_ROOM: usize = 16400;

// A number that no turn has.
const MARK: u16 = 9999;

// What cannot be printed is left out.
fn show_reading(rt: &impl Print, reading: Reading, turns: &[u16]) {
    let Reading { settings: s, count } = reading;
    let _ = println!(rt; "algo={}\nprocs={}\nhome={}", s.algo, s.procs, s.home);
    let _ = println!(rt; "ticket={}\nbudget={}", s.ticket, s.budget);
    let _ = println!(rt;
        "rounds={}\nhold={}\nturns={count}",
        sum(&s.rounds),
        sum(&s.hold)
    );
    if let (Some(first), Some(last)) = (turns.first(), turns.last()) {
        let _ = println!(rt; "first={first}\nlast={last}");
    }
    let _ = println!(rt; "sum={}", sum(turns));
}

// The turns that had to be written are printed; the rest had to stay. What was accepted is written back.
fn show(rt: &impl Print, answer: Result<Reading, Fault>, schedule: &[u16], file: &[u8]) {
    let written = answer.map_or(0, |reading| reading.count);
    let (turns, others) = schedule.split_at(written.min(schedule.len()));
    match answer {
        Ok(reading) => show_reading(rt, reading, turns),
        Err(fault) => {
            let _ = rt.print(Refused(fault));
        }
    }
    if others.iter().any(|turn| *turn != MARK) {
        let _ = println!(rt; "touched");
    }
    if answer.is_ok_and(|reading| !is_back(reading.settings, turns, file)) {
        let _ = println!(rt; "not back");
    }
}

fn read_next(rt: &impl Print, given: &mut Given<'_>) {
    let mut file = [0u8; MOST_LENGTH];
    let mut schedule = [MARK; MOST_ROOM];
    let room = given.size().min(MOST_ROOM);
    let schedule = &mut schedule[..room];
    let file = stored_file(given, &mut file);
    let answer = read(file, schedule);
    show(rt, answer, schedule, file);
}

fn main(rt: HostRuntime) {
    let mut input = [0u8; MOST_BYTES];
    let mut given = Given::new(read_full(&rt, &mut input));
    for k in 0..given.size() {
        let _ = println!(rt; "file={k}");
        read_next(&rt, &mut given);
    }
}
