// A step that is to be made.
ghost use Rattle.std.specs.Prelude.{◌≡◌, ◌<◌};
ghost use Rattle.turns.specs.View.{course_of};

use crate::course::Course;
use crate::processor::Processor;

// at: the step by its number in the rules (those of mcs are document 01's); each machine has a match on it, which reads as the figure does.
// Processor w's next turn is no hold turn and not idle: it is the step at this place of its program. hold: how many hold turns follow a grant or a leaving.
#[derive(Clone, Copy)]
pub struct Step {
    pub(crate) course: Course,
    pub w: Processor,
    pub at: u8,
    pub(crate) hold: u8,
    pub ghost here: { (course_of course).at w.number ≡ at },
    pub ghost none_left: { (course_of course).left w.number ≡ 0 },
    pub ghost few: { (course_of course).done w.number < 65535 },
}
