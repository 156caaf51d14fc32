// The dissemination barrier (figure 10).
ghost use Rattle.std.specs.Prelude.{◌≡◌, ◌<◌, ◌≤◌, ◌+◌, ◌-◌, ◌*◌, ◌%◌, ◌^◌, true, false, eqb};
ghost use Rattle.rules.specs.Memory.{pick};
ghost use Rattle.rules.specs.Dissem.{machine, doublings, waits};
ghost use Rattle.dissem.specs.DissemView.{sense_of, parity_of, round_of, memory_of, told, Sound};

use crate::doublings::levels;
use settings::Settings;
use turns::{Kind, Machine, Processor, Says, State, Step, bit, with_bit};

// flags: of each processor its flags, variable v as bit v. levels: R. own: of each processor its round * 4 + parity * 2 + sense, in one number,
// since a step copies the row that it changes; true is 1, as in the rules.
// levels stands between the rows: the compiler then copies only the one that a step changes. For the same reason a row that is read has a
// name of its own.
#[derive(Clone, Copy)]
pub struct Dissem {
    flags: [u16; 64],
    levels: u8,
    own: [u8; 64],
}

fn sense(own: u8) -> u16
    ensures { result ≡ sense_of own }
{
    (own & 1) as u16
}

// The variable that is written or read in this round.
fn variable(own: u8) -> u8
    ensures { result ≡ 2 * round_of own + parity_of own }
{
    own >> 1
}

fn round(own: u8) -> u8
    ensures { result ≡ round_of own }
{
    own >> 2
}

// What own becomes on leaving: the sense is toggled if parity is 1, parity changes, and the round is 0.
fn left(own: u8) -> u8
    ensures sense { sense_of result ≡ pick (eqb (parity_of own) 1) (1 - sense_of own) (sense_of own) }
    ensures parity { parity_of result ≡ 1 - parity_of own }
    ensures round { round_of result ≡ 0 }
{
    match own & 3 {
        0 => 2,
        1 => 3,
        2 => 1,
        _ => 0,
    }
}

// The processor that w tells in round k. In each of the R rounds 2^k is below procs, so the sum is below twice procs.
fn partner(w: Processor, k: u8, procs: usize) -> Processor
    requires below { w.number < procs }
    requires procs { procs ≤ 64 }
    requires round { k < doublings procs }
    ensures { result.number ≡ (w.number + 2 ^ k) % procs }
{
    let j = w.number + (1usize << k);
    if procs <= j {
        return Processor { number: j - procs };
    }
    Processor { number: j }
}

impl Dissem {
    // Processor w writes its sense into j's flag, at its own parity and round.
    fn tells(self, w: Processor, j: Processor) -> Dissem
        requires { (memory_of self).round w.number < 6 }
        ensures levels { result.levels ≡ self.levels }
        ensures memory { memory_of result ≡ told w.number j.number (memory_of self) }
    {
        let own = self.own;
        let o = own[w.number];
        let mut flags = self.flags;
        flags[j.number] = with_bit(flags[j.number], variable(o), sense(o));
        Dissem { flags, ..self }
    }

    // Processor w goes to the next round.
    fn goes_on(self, w: Processor) -> Dissem
        requires { (memory_of self).round w.number < 6 }
        ensures levels { result.levels ≡ self.levels }
        ensures memory { memory_of result ≡ (waits true false (memory_of self) w.number).memory }
    {
        let mut own = self.own;
        own[w.number] += 4;
        Dissem { own, ..self }
    }

    // Processor w ends its passage.
    fn leaves(self, w: Processor) -> Dissem
        ensures levels { result.levels ≡ self.levels }
        ensures memory { memory_of result ≡ (waits true true (memory_of self) w.number).memory }
    {
        let mut own = self.own;
        own[w.number] = left(own[w.number]);
        Dissem { own, ..self }
    }
}

impl Machine for Dissem {
    ghost rules = { machine };

    ghost memory = { memory_of };

    ghost sound = { Sound };

    fn start(s: &Settings) -> Dissem {
        Dissem {
            flags: [0; 64],
            levels: levels(s.procs),
            own: [1; 64],
        }
    }

    fn step(self, step: Step, s: &Settings) -> State<Dissem> {
        let w = step.w;
        let at = step.at;
        let own = self.own;
        let o = own[w.number];
        if at == 2 {
            let flags = self.flags;
            if bit(flags[w.number], variable(o)) != sense(o) {
                return step.stay(self, w);
            }
            if round(o) + 1 == self.levels {
                return step.over(self.leaves(w), w, Says::One(Kind::Leave));
            }
            return step.to(self.goes_on(w), w, Says::Nothing, 3);
        }
        if s.procs == 1 {
            return step.over(self, w, Says::Two(Kind::Arrive, Kind::Leave));
        }
        let j = partner(w, round(o), s.procs as usize);
        let says = if at == 1 {
            Says::One(Kind::Arrive)
        } else {
            Says::Nothing
        };
        return step.to(self.tells(w, j), j, says, 2);
    }
}
