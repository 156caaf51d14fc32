// What a turn says.
ghost use Rattle.std.specs.Prelude.{◌≡◌, ◌+◌, ◌*◌};
ghost use Rattle.rules.specs.Step.{number};
ghost use Rattle.rules.specs.Course.{begins, holding};
ghost use Rattle.turns.specs.Saying.{kind_of, says_of, Numbered};

// The kinds of events, with their numbers.
#[derive(Clone, Copy, Debug, PartialEq, Eq)]
pub enum Kind {
    Join = 1,
    Grant = 2,
    Release = 3,
    Arrive = 4,
    Leave = 5,
}

// A number that no kind has.
#[derive(Clone, Copy, Debug, PartialEq, Eq)]
pub struct UnknownKind(pub u16);

// Nothing, one event, or two in this order.
#[derive(Clone, Copy, Debug, PartialEq, Eq)]
pub enum Says {
    Nothing,
    One(Kind),
    Two(Kind, Kind),
}

impl From<Kind> for u16 {
    ghost from_gives = { λ k n. n ≡ number (kind_of k) };

    fn from(k: Kind) -> u16 {
        k as u16
    }
}

impl TryFrom<u16> for Kind {
    type Error = UnknownKind;

    ghost try_from_gives = { Numbered };

    fn try_from(number: u16) -> Result<Kind, UnknownKind> {
        match number {
            1 => Ok(Kind::Join),
            2 => Ok(Kind::Grant),
            3 => Ok(Kind::Release),
            4 => Ok(Kind::Arrive),
            5 => Ok(Kind::Leave),
            _ => Err(UnknownKind(number)),
        }
    }
}

impl Kind {
    // Hold turns follow the grant of a lock and the leaving of a barrier.
    fn begins(self) -> bool
        ensures { result ≡ begins (kind_of self) }
    {
        matches!(self, Kind::Grant | Kind::Leave)
    }
}

impl Says {
    pub fn holds(self) -> bool
        ensures { result ≡ holding (says_of self) }
    {
        match self {
            Says::Nothing => false,
            Says::One(k) => k.begins(),
            Says::Two(k, l) => k.begins() || l.begins(),
        }
    }
}
