// The central barrier (figure 8).
ghost use Rattle.std.specs.Prelude.{◌≡◌, ◌-◌};
ghost use Rattle.rules.specs.Memory.{upd};
ghost use Rattle.rules.specs.Central.{machine};
ghost use Rattle.central.specs.CentralView.{memory_of};

use settings::Settings;
use turns::{Kind, Machine, Processor, Says, State, Step};

// The count and the sense, and each processor's local sense. True is 1, as in the rules.
#[derive(Clone, Copy)]
pub struct Central {
    count: u16,
    sense: u8,
    local: [u8; 64],
}

fn toggled(sense: u8) -> u8
    ensures { result ≡ 1 - sense }
{
    if sense == 0 { 1 } else { 0 }
}

impl Central {
    // Processor w toggles its local sense and is counted.
    #[tactic(auto, using(rules::proofs::Views::view_set, rules::proofs::Views::view_at))]
    fn counts(self, w: Processor) -> Central
        ensures { memory_of result ≡ record { count = self.count - 1; sense = self.sense; local = upd (memory_of self).local w.number (1 - (memory_of self).local w.number) } }
    {
        let mut local = self.local;
        local[w.number] = toggled(local[w.number]);
        Central {
            local,
            count: self.count.saturating_sub(1),
            ..self
        }
    }

    // The count is again that of all processors.
    fn resets(self, procs: u16) -> Central
        ensures { memory_of result ≡ record { count = procs; sense = self.sense; local = (memory_of self).local } }
    {
        Central {
            count: procs,
            ..self
        }
    }

    // The sense becomes processor w's local sense.
    #[tactic(auto, using(rules::proofs::Views::view_at))]
    fn opens(self, w: Processor) -> Central
        ensures { memory_of result ≡ record { count = self.count; sense = (memory_of self).local w.number; local = (memory_of self).local } }
    {
        let local = self.local;
        Central {
            sense: local[w.number],
            ..self
        }
    }
}

impl Machine for Central {
    ghost rules = { machine };

    ghost memory = { memory_of };

    ghost sound = { λ s m at. Unit {0} };

    fn start(s: &Settings) -> Central {
        Central {
            local: [1; 64],
            count: s.procs,
            sense: 1,
        }
    }

    fn step(self, step: Step, s: &Settings) -> State<Central> {
        let w = step.w;
        let home = Processor {
            number: s.home as usize,
        };
        // Every arm returns: the state is then copied nowhere.
        match step.at {
            1 => {
                let next = if self.count == 1 { 2 } else { 4 };
                return step.to(self.counts(w), home, Says::One(Kind::Arrive), next);
            }
            2 => {
                return step.to(self.resets(s.procs), home, Says::Nothing, 3);
            }
            3 => {
                return step.over(self.opens(w), home, Says::One(Kind::Leave));
            }
            _ => {
                let local = self.local;
                if self.sense == local[w.number] {
                    return step.over(self, home, Says::One(Kind::Leave));
                }
                return step.stay(self, home);
            }
        }
    }
}
