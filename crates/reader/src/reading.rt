// The whole file.
ghost use Rattle.std.specs.Prelude.{◌≤◌};
ghost use Rattle.rules.specs.Bounds.{most_procs};
ghost use Rattle.settings.specs.View.{settings_of};
ghost use Rattle.reader.specs.LineView.{ending};
ghost use Rattle.reader.specs.ReadView.{GotIs, ReadIs};

use crate::front::front;
use crate::lines::lines;
use crate::schedule::gather;
use settings::{MOST_TURNS, Refusal, Settings};
use tokens::{Fault, Place};

#[derive(Clone, Copy, Debug, PartialEq, Eq)]
pub struct Reading {
    pub settings: Settings,
    // Of the turns.
    pub count: usize,
}

// The turns of these settings and nothing more. The turns go to the schedule only where all is accepted.
#[tactic(auto, using(crate::proofs::Answering::closings))]
fn closing(p: Place<'_>, settings: Settings, schedule: &mut [u16]) -> Result<Reading, Fault>
    requires { settings.procs ≤ most_procs }
    ensures { GotIs (ending (settings_of settings) p.entry.rest.now p.entry.at) schedule.old schedule.new result }
{
    // First of all, so that the row is cleared once. A row of the reader's own, and no Vec: document 01 has no refusal for want of memory.
    let mut kept = [0; MOST_TURNS];
    let (count, p) = gather(p, settings.procs as usize, &mut kept)?;
    p.end()?;
    if schedule.len() < count {
        return Err(Fault {
            refusal: Refusal::TooShort,
            place: 0,
        });
    }
    schedule[..count].copy_from_slice(&kept[..count]);
    Ok(Reading { settings, count })
}

// Reads a settings file. The row of turns is not made before the turns are reached.
#[tactic(auto, using(crate::proofs::Answering::ways))]
pub fn read(file: &[u8], schedule: &mut [u16]) -> Result<Reading, Fault>
    ensures { ReadIs file.now schedule.old schedule.new result }
{
    let (head, p) = front(Place::start(file))?;
    let (settings, p) = lines(p, head)?;
    closing(p.label(b"turns=")?, settings, schedule)
}
