// The course of each processor through its passages, hold turns and idle turns, once for all machines.
ghost use Rattle.std.specs.Prelude.{◌≡◌, ◌<◌, ◌+◌, ◌-◌, eqb};
ghost use Rattle.rules.specs.Memory.{pick};
ghost use Rattle.rules.specs.Course.{outset};
ghost use Rattle.turns.specs.View.{course_of, holds, held, gone_to, ended, Dues};

use crate::processor::Processor;

// at: the step, and HOLDS more where hold turns come first. left: how many of these follow the next one.
// Rows, and no row of structs: a turn copies what it changes, and this is the least (DECISIONS 22). gap is 0 and parts the rows for the same.
#[derive(Clone, Copy)]
pub struct Course {
    done: [u16; 64],
    gap: u8,
    at: [u8; 64],
    left: [u8; 64],
}

// What a processor's next turn is: a hold turn, an idle turn, or this step.
#[derive(Clone, Copy)]
pub enum Due {
    Hold,
    Idle,
    Step(u8),
}

// A step is below it: there are ten at most, and whoever names one knows which. One row then tells what a turn is (DECISIONS 20).
const HOLDS: u8 = 128;

// The step as it stands in the row, with this many hold turns before it.
fn after_hold(step: u8, hold: u8) -> u8
    requires { step < holds }
    ensures { result ≡ pick (eqb hold 0) step (step + holds) }
{
    if hold == 0 { step } else { step + HOLDS }
}

impl Course {
    // Everybody is at step 1 of the first passage.
    pub(crate) fn start() -> Course
        ensures { course_of result ≡ outset }
    {
        Course {
            done: [0; 64],
            gap: 0,
            at: [1; 64],
            left: [0; 64],
        }
    }

    pub(crate) fn due(self, w: Processor, rounds: u16) -> Due
        ensures { Dues (course_of self) w.number rounds result }
    {
        let i = w.number;
        let at = self.at;
        let step = at[i];
        if step >= HOLDS {
            return Due::Hold;
        }
        if step == 1 {
            let done = self.done;
            if done[i] == rounds {
                return Due::Idle;
            }
        }
        Due::Step(step)
    }

    // After a hold turn of processor w.
    pub(crate) fn held(self, w: Processor) -> Course
        requires { 0 < (course_of self).left w.number }
        ensures { course_of result ≡ held (course_of self) w.number }
    {
        let i = w.number;
        let mut at = self.at;
        let mut left = self.left;
        let more = left[i];
        at[i] = after_hold(at[i] % HOLDS, more);
        left[i] = more.saturating_sub(1);
        Course { at, left, ..self }
    }

    // Processor w goes to this step, after its hold turns.
    pub(crate) fn goes(self, w: Processor, step: u8, hold: u8) -> Course
        requires { step < holds }
        ensures { course_of result ≡ gone_to (course_of self) w.number step hold }
    {
        let i = w.number;
        let mut at = self.at;
        let mut left = self.left;
        at[i] = after_hold(step, hold);
        left[i] = hold.saturating_sub(1);
        Course { at, left, ..self }
    }

    // One passage more of processor w is done.
    pub(crate) fn ends(self, w: Processor) -> Course
        requires { (course_of self).done w.number < 65535 }
        ensures { course_of result ≡ ended (course_of self) w.number }
    {
        let mut done = self.done;
        done[w.number] += 1;
        Course { done, ..self }
    }
}
