// The run of a machine over a schedule.
ghost use Rattle.std.specs.Prelude.{◌*◌, ◌≤◌, length};
ghost use Rattle.settings.specs.View.{settings_of};
ghost use Rattle.turns.specs.PlayView.{PlayedIs};

use crate::counts::{far_of, tell};
use crate::course::Due;
use crate::machine::{Machine, State};
use crate::played::{Played, Stop};
use crate::processor::Processor;
use crate::step::Step;
use settings::Trial;

pub fn play<M: Machine>(trial: Trial<'_>, events: &mut [u16]) -> Played
    requires { 2 * length trial.schedule.now ≤ length events.old }
    ensures { PlayedIs M.rules (settings_of trial.entry.settings) trial.entry.schedule.now events.old events.new result }
{
    let mut state = State::<M>::start(&trial.settings);
    let mut sums = [0; 384];
    let mut total: u32 = 0;
    let mut n: usize = 0;
    let mut k: usize = 0;
    // As document 01 has it, the loop breaks with why it stops and the turns taken.
    let (stop, taken) = loop {
        let Some(&turn) = trial.schedule.get(k) else {
            break (Stop::UsedUp, k);
        };
        let w = Processor {
            number: turn as usize,
        };
        // Each arm stores the next state by itself: in a function of its own, or as the value of the match, a turn costs up to 70 percent more.
        match state.course.due(w, trial.settings.rounds[w.number]) {
            Due::Hold => state = state.holds(w),
            Due::Idle => state = state.idles(w),
            Due::Step(at) => {
                let step = Step {
                    course: state.course,
                    w,
                    at,
                    hold: trial.settings.hold[w.number] as u8,
                };
                state = state.memory.step(step, &trial.settings);
            }
        }
        let paid = total + far_of(state.made.owner, w);
        if trial.settings.budget < paid {
            break (Stop::Budget, k);
        }
        total = paid;
        n = tell(&mut sums, events, n, w, state.made);
        k += 1;
    };
    Played {
        stop,
        taken,
        events: n,
        total,
        sums,
    }
}
