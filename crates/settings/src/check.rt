// The one check of settings and schedule that write and run share.
ghost use Rattle.std.specs.Prelude.{◌≡◌};
ghost use Rattle.rules.specs.Calls.{in_row, in_range, all_below};
ghost use Rattle.settings.specs.View.{settings_of};
ghost use Rattle.settings.specs.Check.{Checked};

use crate::algo::Algo;
use crate::bounds::{
    LEAST_PROCS, MOST_BUDGET, MOST_HOLD, MOST_PROCS, MOST_ROUNDS, MOST_TICKET, MOST_TURNS,
};
use crate::record::Settings;
use crate::refusal::Refusal;
use crate::trial::Trial;

// Whether each entry of a row is at most the bound below procs, and zero from procs on.
fn in_row(row: [u16; MOST_PROCS], procs: u16, most: u16) -> bool
    ensures { result ≡ in_row procs most 0 row }
{
    let (below, past) = row.split_at((procs as usize).min(MOST_PROCS));
    below.iter().all(|&x| x <= most) && past.iter().all(|&x| x == 0)
}

// Whether every setting but algo is within its bounds.
#[tactic(auto, unfolding(rules::specs::Calls::in_range))]
fn in_range(s: Settings) -> bool
    ensures { result ≡ in_range (settings_of s) }
{
    LEAST_PROCS <= s.procs
        && (s.procs as usize) <= MOST_PROCS
        && s.home < s.procs
        && s.ticket <= MOST_TICKET
        && s.budget <= MOST_BUDGET
        && in_row(s.rounds, s.procs, MOST_ROUNDS)
        && in_row(s.hold, s.procs, MOST_HOLD)
}

// Whether every turn names a processor below procs.
fn all_below(procs: u16, schedule: &[u16]) -> bool
    ensures { result ≡ all_below procs schedule.now }
{
    schedule.iter().all(|&w| w < procs)
}

// Of any settings and any schedule: the settings and the schedule, in order; or the refusal, in the order 2, 3, 5, 4. Whether there is room is the caller's to judge.
#[tactic(auto, using(crate::proofs::Checks::numbers))]
pub fn checked(s: Settings, schedule: &[u16]) -> Result<Trial<'_>, Refusal>
    ensures { Checked s schedule.now result }
{
    let algo = Algo::try_from(s.algo)?;
    if !in_range(s) {
        return Err(Refusal::Outside);
    }
    if schedule.len() > MOST_TURNS {
        return Err(Refusal::TooMany);
    }
    if !all_below(s.procs, schedule) {
        return Err(Refusal::Stray);
    }
    Ok(Trial {
        algo,
        settings: s,
        schedule,
    })
}
