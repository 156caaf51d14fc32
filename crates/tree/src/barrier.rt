// The tree barrier (figure 12).
ghost use Rattle.std.specs.Prelude.{◌≡◌, ◌<◌, ◌≤◌, ◌+◌, Some, None, IfSome, eqb, ltb};
ghost use Rattle.rules.specs.Memory.{pick, upd, each};
ghost use Rattle.rules.specs.Tree.{machine, child};
ghost use Rattle.rules.specs.Step.{arrive, leave, nothing, one, two};
ghost use Rattle.turns.specs.Saying.{says_of};
ghost use Rattle.turns.specs.View.{course_of, told_of};
ghost use Rattle.turns.specs.Stepping.{goes_on, told_so};
ghost use Rattle.tree.specs.TreeView.{memory_of, toggled, memory_next, says_next, to_next, Sound};

use settings::Settings;
use turns::{Kind, Machine, Processor, Says, State, Step, bit, with_bit};

// The steps after the flags are read, with their numbers in the rules: for every machine the course keeps steps as numbers.
const SETS: u8 = 6;

const TELLS: u8 = 7;

const WAITS: u8 = 8;

const WAKES_LEFT: u8 = 9;

const WAKES_RIGHT: u8 = 10;

// A processor's variables are the bits of its word: the sense that wakes it, its own sense, and from FLAGS on the children that have told, by slot.
// Steps 2 to 5 read the flags that are bits 2 to 5. True is 1, as in the rules.
const WAKE: u8 = 0;

const SENSE: u8 = 1;

const FLAGS: u8 = 2;

#[derive(Clone, Copy)]
pub struct Tree {
    words: [u16; 64],
}

// The step that reads the flag in this slot of w, or the one after all flags where that child is absent.
fn reading(w: Processor, slot: usize, procs: usize) -> u8
    requires { slot < 5 }
    ensures { result ≡ pick (ltb (child w.number slot) procs) (2 + slot) 6 }
{
    if procs <= 4 * w.number + slot + 1 {
        return SETS;
    }
    FLAGS + slot as u8
}

// What is done at this step: at step 1 the first flag is read, if there is one.
fn doing(step: u8, w: Processor, procs: usize) -> u8
    ensures { result ≡ pick (eqb step 1) (pick (ltb (child w.number 0) procs) 2 6) step }
{
    if step == 1 {
        return reading(w, 0, procs);
    }
    step
}

// The step at which child c is woken, or none where it is absent: then the passage is over.
fn waking(c: usize, step: u8, procs: usize) -> Option<u8>
    ensures { result ≡ pick (ltb c procs) (Some step) None }
{
    (c < procs).then_some(step)
}

// The step after the flags are set up. Processor 0 has nobody to tell.
fn after_sets(w: Processor, procs: usize) -> Option<u8>
    ensures { result ≡ pick (eqb w.number 0) (pick (ltb 1 procs) (Some 9) None) (Some 7) }
{
    if w.number != 0 {
        return Some(TELLS);
    }
    waking(1, WAKES_LEFT, procs)
}

// What a step says after which the passage goes on; first: it is the arrival.
fn arrival(first: bool) -> Says
    ensures { says_of result ≡ pick first (one arrive) nothing }
{
    if first {
        Says::One(Kind::Arrive)
    } else {
        Says::Nothing
    }
}

// What the last step of a passage says, which is the first too where there is one processor.
fn leaving(first: bool) -> Says
    ensures { says_of result ≡ pick first (two arrive leave) (one leave) }
{
    if first {
        Says::Two(Kind::Arrive, Kind::Leave)
    } else {
        Says::One(Kind::Leave)
    }
}

impl Tree {
    // Processor w's flags are set: none of its children has told.
    fn sets(self, w: Processor) -> Tree
        ensures { memory_of result ≡ record { flag = upd (memory_of self).flag w.number (each 1); wake = (memory_of self).wake; sense = (memory_of self).sense } }
    {
        let mut words = self.words;
        words[w.number] %= 4;
        Tree { words }
    }

    // The flag in this slot of processor w is cleared.
    fn clears(self, w: Processor, slot: u8) -> Tree
        requires { slot < 4 }
        ensures { memory_of result ≡ record { flag = upd (memory_of self).flag w.number (upd ((memory_of self).flag w.number) slot 0); wake = (memory_of self).wake; sense = (memory_of self).sense } }
    {
        let mut words = self.words;
        words[w.number] = with_bit(words[w.number], FLAGS + slot, 1);
        Tree { words }
    }

    // Processor c is woken with w's sense.
    fn wakes(self, w: Processor, c: Processor) -> Tree
        ensures { memory_of result ≡ record { flag = (memory_of self).flag; wake = upd (memory_of self).wake c.number ((memory_of self).sense w.number); sense = (memory_of self).sense } }
    {
        let mut words = self.words;
        words[c.number] = with_bit(words[c.number], WAKE, bit(words[w.number], SENSE));
        Tree { words }
    }

    // Processor w's own sense is toggled.
    fn toggles(self, w: Processor) -> Tree
        ensures { memory_of result ≡ toggled (memory_of self) w.number }
    {
        let mut words = self.words;
        words[w.number] = with_bit(words[w.number], SENSE, 1 - bit(words[w.number], SENSE));
        Tree { words }
    }

    // How a step ends: the passage goes on at the next step, or there is none and it is over.
    fn ends(self, step: Step, next: Option<u8>, owner: Processor) -> State<Tree>
        requires { IfSome next (λ k. k ≤ 10) }
        ensures memory { memory_of result.memory ≡ memory_next next (memory_of self) step.w.number }
        ensures course { course_of result.course ≡ goes_on (course_of step.course) step.w.number (says_next next (eqb step.at 1)) (to_next next) step.hold }
        ensures tells { told_of step.w.number result.made ≡ told_so step.w.number step.at owner.number (says_next next (eqb step.at 1)) (to_next next) }
    {
        let first = step.at == 1;
        if let Some(at) = next {
            return step.to(self, owner, arrival(first), at);
        }
        step.over(self.toggles(step.w), owner, leaving(first))
    }
}

impl Machine for Tree {
    ghost rules = { machine };

    ghost memory = { memory_of };

    ghost sound = { λ s m at. Sound s.procs at };

    fn start(_s: &Settings) -> Tree {
        // Every own sense starts true, every other bit at 0.
        Tree { words: [2; 64] }
    }

    fn step(self, step: Step, s: &Settings) -> State<Tree> {
        let w = step.w;
        let at = step.at;
        let words = self.words;
        let word = words[w.number];
        let first = at == 1;
        let procs = s.procs as usize;
        let k = doing(at, w, procs);
        match k {
            SETS => self.sets(w).ends(step, after_sets(w, procs), w),
            TELLS => {
                let parent = Processor {
                    number: (w.number - 1) / 4,
                };
                step.to(
                    self.clears(parent, ((w.number - 1) % 4) as u8),
                    parent,
                    Says::Nothing,
                    WAITS,
                )
            }
            WAITS => {
                if bit(word, WAKE) != bit(word, SENSE) {
                    return step.stay(self, w);
                }
                self.ends(step, waking(2 * w.number + 1, WAKES_LEFT, procs), w)
            }
            WAKES_LEFT => {
                let c = Processor {
                    number: 2 * w.number + 1,
                };
                self.wakes(w, c)
                    .ends(step, waking(c.number + 1, WAKES_RIGHT, procs), c)
            }
            WAKES_RIGHT => {
                let c = Processor {
                    number: 2 * w.number + 2,
                };
                self.wakes(w, c).ends(step, None, c)
            }
            _ => {
                if bit(word, k) == 0 {
                    return step.again(self, w, arrival(first), k);
                }
                step.to(self, w, arrival(first), reading(w, k as usize - 1, procs))
            }
        }
    }
}
