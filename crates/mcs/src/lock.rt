// The MCS lock (figure 5).
ghost use Rattle.std.specs.Prelude.{◌≡◌};
ghost use Rattle.rules.specs.Mcs.{machine, set_tail, set_next, set_locked, set_pred, set_succ};
ghost use Rattle.mcs.specs.McsView.{memory_of, Sound};

use settings::Settings;
use turns::{Kind, Machine, Processor, Says, State, Step};

// tail, each processor's next and locked, and what it keeps for itself: pred and succ. The state is copied at every turn, so it is packed,
// in rows and no row of structs (DECISIONS 22): in tail and next, nil is 0 and processor q is q + 1; in locked, true is 1: the rules' numbers.
#[derive(Clone, Copy)]
pub struct Mcs {
    tail: u16,
    next: [u8; 64],
    locked: [u8; 64],
    pred: [u8; 64],
    succ: [u8; 64],
}

// The memory with one value stored: the rules' stores, each under its name.
impl Mcs {
    fn with_tail(self, v: u16) -> Mcs
        ensures { memory_of result ≡ set_tail v (memory_of self) }
    {
        Mcs { tail: v, ..self }
    }

    #[tactic(auto, using(rules::proofs::Views::view_set))]
    fn with_next(self, q: Processor, v: u8) -> Mcs
        ensures { memory_of result ≡ set_next q.number v (memory_of self) }
    {
        let mut next = self.next;
        next[q.number] = v;
        Mcs { next, ..self }
    }

    #[tactic(auto, using(rules::proofs::Views::view_set))]
    fn with_locked(self, q: Processor, v: u8) -> Mcs
        ensures { memory_of result ≡ set_locked q.number v (memory_of self) }
    {
        let mut locked = self.locked;
        locked[q.number] = v;
        Mcs { locked, ..self }
    }

    #[tactic(auto, using(rules::proofs::Views::view_set))]
    fn with_pred(self, q: Processor, v: u8) -> Mcs
        ensures { memory_of result ≡ set_pred q.number v (memory_of self) }
    {
        let mut pred = self.pred;
        pred[q.number] = v;
        Mcs { pred, ..self }
    }

    #[tactic(auto, using(rules::proofs::Views::view_set))]
    fn with_succ(self, q: Processor, v: u8) -> Mcs
        ensures { memory_of result ≡ set_succ q.number v (memory_of self) }
    {
        let mut succ = self.succ;
        succ[q.number] = v;
        Mcs { succ, ..self }
    }
}

impl Machine for Mcs {
    ghost rules = { machine };

    ghost memory = { memory_of };

    ghost sound = { λ s m at. Sound (memory_of m) };

    fn start(_s: &Settings) -> Mcs {
        Mcs {
            next: [0; 64],
            locked: [0; 64],
            pred: [0; 64],
            succ: [0; 64],
            tail: 0,
        }
    }

    fn step(self, step: Step, s: &Settings) -> State<Mcs> {
        let w = step.w;
        let home = Processor {
            number: s.home as usize,
        };
        // Every arm returns: the state is then copied nowhere.
        match step.at {
            1 => {
                return step.to(self.with_next(w, 0), w, Says::Nothing, 2);
            }
            2 => {
                if self.tail == 0 {
                    return step.to(
                        self.with_tail(w.number as u16 + 1),
                        home,
                        Says::Two(Kind::Join, Kind::Grant),
                        7,
                    );
                }
                return step.to(
                    self.with_pred(w, (self.tail - 1) as u8)
                        .with_tail(w.number as u16 + 1),
                    home,
                    Says::One(Kind::Join),
                    3,
                );
            }
            3 => {
                return step.to(self.with_locked(w, 1), w, Says::Nothing, 4);
            }
            4 => {
                let pred = self.pred;
                let p = Processor {
                    number: pred[w.number] as usize,
                };
                return step.to(self.with_next(p, (w.number + 1) as u8), p, Says::Nothing, 5);
            }
            5 => {
                let locked = self.locked;
                if locked[w.number] == 0 {
                    return step.to(self, w, Says::One(Kind::Grant), 7);
                }
                return step.stay(self, w);
            }
            // Figure 5 reads next in two places. Nil leads on to the compare-and-swap at 7, and is a spin at 9.
            7 | 9 => {
                let next = self.next;
                let n = next[w.number];
                if n != 0 {
                    return step.to(self.with_succ(w, n - 1), w, Says::Nothing, 10);
                }
                if step.at == 7 {
                    return step.to(self, w, Says::Nothing, 8);
                }
                return step.stay(self, w);
            }
            8 => {
                if self.tail == w.number as u16 + 1 {
                    return step.over(self.with_tail(0), home, Says::One(Kind::Release));
                }
                return step.to(self, home, Says::Nothing, 9);
            }
            _ => {
                let succ = self.succ;
                let q = Processor {
                    number: succ[w.number] as usize,
                };
                return step.over(self.with_locked(q, 0), q, Says::One(Kind::Release));
            }
        }
    }
}
