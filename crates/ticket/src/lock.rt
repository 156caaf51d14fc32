// The ticket lock (figure 2).
ghost use Rattle.std.specs.Prelude.{◌≡◌};
ghost use Rattle.rules.specs.Ticket.{machine, up, set_request, set_release, set_mine, set_found};
ghost use Rattle.ticket.specs.TicketView.{memory_of};

use settings::Settings;
use turns::{Kind, Machine, Processor, Says, State, Step};

// Both counters, and what each processor keeps for itself: its ticket, and what it found in the release counter:
// two rows and no row of structs, since a step copies what it changes (DECISIONS 22).
#[derive(Clone, Copy)]
pub struct Ticket {
    mine: [u16; 64],
    found: [u16; 64],
    request: u16,
    release: u16,
}

impl Ticket {
    // Processor w takes the next ticket. After 65535 comes 0.
    #[tactic(auto, using(rules::proofs::Views::view_set))]
    fn asks(self, w: Processor) -> Ticket
        ensures { memory_of result ≡ set_mine w.number self.request (set_request (up self.request) (memory_of self)) }
    {
        let mut mine = self.mine;
        mine[w.number] = self.request;
        Ticket {
            mine,
            request: self.request.wrapping_add(1),
            ..self
        }
    }

    // Processor w reads the release counter.
    #[tactic(auto, using(rules::proofs::Views::view_set))]
    fn finds(self, w: Processor) -> Ticket
        ensures { memory_of result ≡ set_found w.number self.release (memory_of self) }
    {
        let mut found = self.found;
        found[w.number] = self.release;
        Ticket { found, ..self }
    }

    // Processor w writes the release counter, one higher than it found it: the next ticket is served. After 65535 comes 0.
    #[tactic(auto, using(rules::proofs::Views::view_at))]
    fn frees(self, w: Processor) -> Ticket
        ensures { memory_of result ≡ set_release (up ((memory_of self).found w.number)) (memory_of self) }
    {
        let found = self.found;
        Ticket {
            release: found[w.number].wrapping_add(1),
            ..self
        }
    }
}

impl Machine for Ticket {
    ghost rules = { machine };

    ghost memory = { memory_of };

    ghost sound = { λ s x at. Unit {0} };

    fn start(s: &Settings) -> Ticket {
        let ticket = s.ticket as u16;
        Ticket {
            mine: [0; 64],
            found: [0; 64],
            request: ticket,
            release: ticket,
        }
    }

    fn step(self, step: Step, s: &Settings) -> State<Ticket> {
        let w = step.w;
        let home = Processor {
            number: s.home as usize,
        };
        // Every arm returns: the state is then copied nowhere. Step 2, where processors wait, stands behind 3: so the compiler leaves out
        // the copies of what a spin hands on.
        match step.at {
            1 => {
                return step.to(self.asks(w), home, Says::One(Kind::Join), 2);
            }
            3 => {
                return step.to(self.finds(w), home, Says::Nothing, 4);
            }
            2 => {
                let mine = self.mine;
                if self.release == mine[w.number] {
                    return step.to(self, home, Says::One(Kind::Grant), 3);
                }
                return step.stay(self, home);
            }
            _ => {
                return step.over(self.frees(w), home, Says::One(Kind::Release));
            }
        }
    }
}
