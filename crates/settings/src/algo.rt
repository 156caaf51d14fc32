// The machines, by their numbers and names.
ghost use Rattle.std.specs.Prelude.{◌≡◌};
ghost use Rattle.settings.specs.Numbers.{algo_number, algo_name, Numbered, Named};

use crate::refusal::Refusal;

#[derive(Clone, Copy, Debug, PartialEq, Eq)]
pub enum Algo {
    Ticket = 1,
    Mcs = 2,
    Central = 3,
    Dissem = 4,
    Tree = 5,
}

const ALL: [Algo; 5] = [
    Algo::Ticket,
    Algo::Mcs,
    Algo::Central,
    Algo::Dissem,
    Algo::Tree,
];

impl From<Algo> for u16 {
    ghost from_gives = { λ a n. n ≡ algo_number a };

    fn from(a: Algo) -> u16 {
        a as u16
    }
}

impl TryFrom<u16> for Algo {
    type Error = Refusal;

    ghost try_from_gives = { Numbered };

    fn try_from(number: u16) -> Result<Algo, Refusal> {
        match number {
            1 => Ok(Algo::Ticket),
            2 => Ok(Algo::Mcs),
            3 => Ok(Algo::Central),
            4 => Ok(Algo::Dissem),
            5 => Ok(Algo::Tree),
            _ => Err(Refusal::Unknown),
        }
    }
}

impl Algo {
    // The name that stands in the file.
    #[tactic(auto, unfolding(crate::specs::Numbers::algo_name))]
    pub fn name(self) -> &'static [u8]
        ensures { result.now ≡ algo_name self }
    {
        match self {
            Algo::Ticket => b"ticket",
            Algo::Mcs => b"mcs",
            Algo::Central => b"central",
            Algo::Dissem => b"dissem",
            Algo::Tree => b"tree",
        }
    }

    // The machine of that name.
    pub fn named(name: &[u8]) -> Option<Algo>
        ensures { Named name.now result }
    {
        ALL.iter().copied().find(|a| name == a.name())
    }
}
