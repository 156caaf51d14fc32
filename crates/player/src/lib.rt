// The program: standard input is read and run, and document 01's lines are printed.
#![tactic(auto)]

mod page;

use input::read_full;
use lines::{Refused, Run};
use machine::{Record, run};
use page::Page;
use settings::{MOST_PROCS, MOST_TURNS};
use std::fmt::Write;
use text::{Fault, Reading, read};

// Longer input is cut here. No answer of `read` depends on a byte past the first 50046.
const MOST_BYTES: usize = 65536;

const MOST_EVENTS: usize = 2 * MOST_TURNS;

// The longest lines: 32 bytes of turns, stop and remote, 64 records of 33, and `events=` with 32768 events of 4 bytes, the separator among them.
const MOST_LINES: usize = 133223;

// `run` accepts what `read` accepted (`read_run`, crates/text/specs/Entries.antt).
fn run_file<'a>(
    file: &[u8],
    schedule: &mut [u16],
    events: &'a mut [u16],
    table: &'a mut [Record],
) -> Result<Run<'a>, Fault> {
    let Reading { settings, count } = read(file, schedule)?;
    let turns = &schedule[..count.min(schedule.len())];
    let answer = run(settings, turns, events, table).map_err(|refusal| Fault {
        refusal,
        place: 0,
    })?;
    let procs = (settings.procs as usize).min(table.len());
    let count = answer.events.min(events.len());
    Ok(Run {
        answer,
        table: &table[..procs],
        events: &events[..count],
    })
}

// All lines are gathered and written at once. What cannot be written is left out.
pub fn play(rt: &(impl Input + Print)) {
    let mut file = [0u8; MOST_BYTES];
    let mut schedule = [0u16; MOST_TURNS];
    let mut events = [0u16; MOST_EVENTS];
    let mut table = [Record::default(); MOST_PROCS];
    let mut lines = [0u8; MOST_LINES];
    let file = read_full(rt, &mut file);
    let mut page = Page {
        out: &mut lines,
        count: 0,
    };
    let _ = match run_file(file, &mut schedule, &mut events, &mut table) {
        Ok(run) => page.write(run),
        Err(fault) => page.write(Refused(fault)),
    };
    let _ = rt.write_all(page.text());
}
