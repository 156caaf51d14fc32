// A run over plain numbers: refusals, and the machine that the settings name. The table is filled afterwards.
ghost use Rattle.std.specs.Prelude.{◌*◌, ◌≤◌, length};
ghost use Rattle.rules.specs.Machines.{machine};
ghost use Rattle.settings.specs.View.{settings_of};
ghost use Rattle.turns.specs.PlayView.{PlayedIs};
ghost use Rattle.machine.specs.RunView.{Decided};

use central::Central;
use dissem::Dissem;
use mcs::Mcs;
use settings::{Algo, Refusal, Settings, Trial, checked};
use ticket::Ticket;
use tree::Tree;
use turns::{Played, play};

// The machine is an enum, and each case makes its own loop of the generic one: no table of functions.
fn play_named(trial: Trial<'_>, events: &mut [u16]) -> Played
    requires { 2 * length trial.schedule.now ≤ length events.old }
    ensures { PlayedIs (machine trial.entry.settings.algo) (settings_of trial.entry.settings) trial.entry.schedule.now events.old events.new result }
{
    match trial.algo {
        Algo::Ticket => play::<Ticket>(trial, events),
        Algo::Mcs => play::<Mcs>(trial, events),
        Algo::Central => play::<Central>(trial, events),
        Algo::Dissem => play::<Dissem>(trial, events),
        Algo::Tree => play::<Tree>(trial, events),
    }
}

// room: how many records the lent table has.
#[tactic(auto, using(crate::proofs::Deciding::refusals))]
pub(crate) fn core(
    s: Settings,
    schedule: &[u16],
    events: &mut [u16],
    room: usize,
) -> Result<Played, Refusal>
    ensures { Decided s schedule.now events.old events.new room result }
{
    let trial = checked(s, schedule)?;
    if room < s.procs as usize || events.len() < 2 * schedule.len() {
        return Err(Refusal::TooShort);
    }
    Ok(play_named(trial, events))
}
