// A machine, its state, and what a step makes of it.
ghost use Rattle.std.specs.Prelude.{◌≡◌, ℕ, ◌<◌, true, false, eqb};
ghost use Rattle.rules.specs.Memory.{pick};
ghost use Rattle.rules.specs.Settings.{Settings};
ghost use Rattle.rules.specs.Step.{Machine, nothing, stay, again, to, over};
ghost use Rattle.rules.specs.Course.{outset, holding};
ghost use Rattle.settings.specs.View.{settings_of};
ghost use Rattle.turns.specs.declared.says.Says.TheVariants.{Nothing};
ghost use Rattle.turns.specs.Saying.{says_of};
ghost use Rattle.turns.specs.View.{course_of, holds, held, told_of, untold};
ghost use Rattle.turns.specs.Stepping.{Fits, Asked, Stepped, goes_on, told_so};

use crate::course::Course;
use crate::made::{Made, Went};
use crate::processor::Processor;
use crate::says::Says;
use crate::step::Step;
use settings::Settings;

// A machine's memory: its variables, and what each processor keeps for itself.
pub trait Machine: Copy {
    // The machine of the rules.
    ghost rules: { Machine };

    // What the memory stands for.
    ghost memory: { Self → rules.State };

    // What the steps keep, of the memory and of the step that each processor is at.
    ghost sound: { Settings → Self → (ℕ → ℕ) → Type 0 };

    fn start(s: &Settings) -> Self
        requires { Fits (settings_of s.now) }
        ensures memory { memory result ≡ rules.start (settings_of s.now) }
        ensures sound { sound (settings_of s.now) result outset.at };

    // Makes this step.
    fn step(self, step: Step, s: &Settings) -> State<Self>
        requires asked { Asked (settings_of s.now) step.w.number step.hold }
        requires sound { sound (settings_of s.now) self (course_of step.course).at }
        ensures stepped { Stepped rules (settings_of s.now) (memory self) (course_of step.course) step.at step.w.number (memory result.memory) (course_of result.course) (told_of step.w.number result.made) }
        ensures sound { sound (settings_of s.now) result.memory (course_of result.course).at };
}

// A machine's memory, the course of each processor, and what was told of the last turn.
#[derive(Clone, Copy)]
pub struct State<M> {
    pub(crate) memory: M,
    pub(crate) course: Course,
    pub(crate) made: Made,
}

impl<M: Machine> State<M> {
    pub(crate) fn start(s: &Settings) -> State<M>
        requires { Fits (settings_of s.now) }
        ensures memory { M.memory result.memory ≡ M.rules.start (settings_of s.now) }
        ensures course { course_of result.course ≡ outset }
        ensures sound { M.sound (settings_of s.now) result.memory (course_of result.course).at }
    {
        State {
            memory: M::start(s),
            course: Course::start(),
            made: rests(Processor { number: 0 }, Went::On),
        }
    }

    // A hold turn of processor w.
    pub(crate) fn holds(self, w: Processor) -> State<M>
        requires { 0 < (course_of self.course).left w.number }
        ensures memory { result.memory ≡ self.memory }
        ensures course { course_of result.course ≡ held (course_of self.course) w.number }
        ensures tells { told_of w.number result.made ≡ untold false }
    {
        State {
            memory: self.memory,
            course: self.course.held(w),
            made: rests(w, Went::On),
        }
    }

    // An idle turn of processor w.
    pub(crate) fn idles(self, w: Processor) -> State<M>
        ensures memory { result.memory ≡ self.memory }
        ensures course { result.course ≡ self.course }
        ensures tells { told_of w.number result.made ≡ untold true }
    {
        State {
            memory: self.memory,
            course: self.course,
            made: rests(w, Went::Idled),
        }
    }
}

// What is told of a turn of processor w without an access.
fn rests(w: Processor, went: Went) -> Made
    ensures { result ≡ record { owner = w; says = Nothing; began = false; went = went } }
{
    Made {
        owner: w,
        says: Says::Nothing,
        began: false,
        went,
    }
}

// How a step ends. memory: as it leaves it. owner: whose variable it touches.
impl Step {
    // What hold turns follow.
    fn hold_after(self, says: Says) -> u8
        ensures { result ≡ pick (holding (says_of says)) self.hold 0 }
    {
        if says.holds() { self.hold } else { 0 }
    }

    fn made(self, owner: Processor, says: Says, went: Went) -> Made
        ensures { result ≡ record { owner = owner; says = says; began = eqb self.at 1; went = went } }
    {
        Made {
            owner,
            says,
            began: self.at == 1,
            went,
        }
    }

    // It spins, and has to be made again.
    pub fn stay<M>(self, memory: M, owner: Processor) -> State<M>
        ensures memory { result.memory ≡ memory }
        ensures course { course_of result.course ≡ goes_on (course_of self.course) self.w.number nothing stay self.hold }
        ensures tells { told_of self.w.number result.made ≡ told_so self.w.number self.at owner.number nothing stay }
        ensures owner { result.made.owner ≡ owner }
    {
        State {
            memory,
            course: self.course,
            made: self.made(owner, Says::Nothing, Went::Spun),
        }
    }

    // It spins, and the processor goes on at this step.
    pub fn again<M>(self, memory: M, owner: Processor, says: Says, at: u8) -> State<M>
        requires { at < holds }
        ensures memory { result.memory ≡ memory }
        ensures course { course_of result.course ≡ goes_on (course_of self.course) self.w.number (says_of says) (again at) self.hold }
        ensures tells { told_of self.w.number result.made ≡ told_so self.w.number self.at owner.number (says_of says) (again at) }
        ensures owner { result.made.owner ≡ owner }
    {
        State {
            memory,
            course: self.course.goes(self.w, at, self.hold_after(says)),
            made: self.made(owner, says, Went::Spun),
        }
    }

    // The processor goes on to this step.
    pub fn to<M>(self, memory: M, owner: Processor, says: Says, at: u8) -> State<M>
        requires { at < holds }
        ensures memory { result.memory ≡ memory }
        ensures course { course_of result.course ≡ goes_on (course_of self.course) self.w.number (says_of says) (to at) self.hold }
        ensures tells { told_of self.w.number result.made ≡ told_so self.w.number self.at owner.number (says_of says) (to at) }
        ensures owner { result.made.owner ≡ owner }
    {
        State {
            memory,
            course: self.course.goes(self.w, at, self.hold_after(says)),
            made: self.made(owner, says, Went::On),
        }
    }

    // The passage is done.
    pub fn over<M>(self, memory: M, owner: Processor, says: Says) -> State<M>
        ensures memory { result.memory ≡ memory }
        ensures course { course_of result.course ≡ goes_on (course_of self.course) self.w.number (says_of says) over self.hold }
        ensures tells { told_of self.w.number result.made ≡ told_so self.w.number self.at owner.number (says_of says) over }
        ensures owner { result.made.owner ≡ owner }
    {
        let w = self.w;
        State {
            memory,
            course: self.course.ends(w).goes(w, 1, self.hold_after(says)),
            made: self.made(owner, says, Went::Over),
        }
    }
}
