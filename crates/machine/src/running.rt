// The run over a schedule, whole: the answer, the events and the table.
ghost use Rattle.std.specs.Prelude.{◌≡◌, eqb};
ghost use Rattle.rules.specs.Memory.{pick};
ghost use Rattle.settings.specs.View.{settings_of};
ghost use Rattle.machine.specs.RunView.{Ran, Tallies};

use crate::decide::core;
use crate::table::{Record, fill};
use settings::{MOST_PROCS, Refusal, Settings};
use turns::Stop;

// turns: taken. events: how many. total: of remote references.
#[derive(Clone, Copy, Debug, PartialEq, Eq)]
pub struct Answer {
    pub turns: usize,
    pub stop: Stop,
    pub events: usize,
    pub total: u32,
}

// What a run over a table that was handed over gives: the answer, and the table.
#[derive(Clone, Copy, Debug, PartialEq, Eq)]
pub struct Tallied {
    pub answer: Result<Answer, Refusal>,
    pub table: [Record; MOST_PROCS],
}

// The core decides all, and then the table is filled.
pub fn run(
    s: Settings,
    schedule: &[u16],
    events: &mut [u16],
    table: &mut [Record],
) -> Result<Answer, Refusal>
    ensures { Ran (settings_of s) schedule.now events.old events.new table.old table.new result }
{
    let p = core(s, schedule, events, table.len())?;
    fill(&mut table[..s.procs as usize], &p.sums);
    Ok(Answer {
        turns: p.taken,
        stop: p.stop,
        events: p.events,
        total: p.total,
    })
}

// The same run over the first records of a table that is handed over and handed back. room: how many are lent, 64 at most.
pub fn tallies(
    s: Settings,
    schedule: &[u16],
    events: &mut [u16],
    mut table: [Record; MOST_PROCS],
    room: usize,
) -> Tallied
    ensures { Tallies (settings_of s) schedule.now events.old events.new table room result }
{
    let n = room.min(table.len());
    let answer = run(s, schedule, events, &mut table[..n]);
    Tallied { answer, table }
}
