// Numbers: 1 to 9 decimal digits and a separator. One of six or more is out of every range.
ghost use Rattle.std.specs.Prelude.{◌≡◌, ◌-◌, ◌^◌, ◌<◌};

use crate::fault::Fault;
use crate::place::Place;
use settings::Refusal;

const MOST_DIGITS: usize = 9;

#[derive(Clone, Copy, Debug, PartialEq, Eq)]
pub struct Numeral {
    pub value: usize,
    // The byte that ended it.
    pub separator: u8,
}

impl<'a> Place<'a> {
    ghost use Rattle.rules.specs.Bounds.{most_digits};
    ghost use Rattle.rules.specs.Rule.{digits, number};
    ghost use Rattle.rules.specs.File.{ranged, field};
    ghost use Rattle.tokens.specs.TokenView.{got_of, numeral_of};

    // The rest of a number whose digits so far say `said`: at most `room` digits more, and then `a` or `b`.
    #[tactic(auto, using(crate::proofs::Numerals::digits_ways))]
    fn digits(self, a: u8, b: u8, room: usize, said: usize) -> Result<(Numeral, Place<'a>), Fault>
        requires room_lt_most_digits { room < most_digits }
        requires said_bound { said < 10 ^ (most_digits - room) }
        ensures { got_of numeral_of result ≡ digits a b room said self.entry.rest.now self.entry.at }
    {
        let mut value = said;
        for (i, &x) in self.rest.iter().enumerate() {
            if x == a || x == b {
                return Ok((
                    Numeral {
                        value,
                        separator: x,
                    },
                    self.after(i + 1),
                ));
            }
            if i == room || !x.is_ascii_digit() {
                return Err(self.malformed(i));
            }
            value = value * 10 + (x - b'0') as usize;
        }
        Err(self.malformed(self.rest.len()))
    }

    // A number that `a` or `b` ends. 0 is written `0`, and no other number starts with 0.
    #[tactic(auto, using(crate::proofs::Numerals::number_ways))]
    pub fn number(self, a: u8, b: u8) -> Result<(Numeral, Place<'a>), Fault>
        ensures { got_of numeral_of result ≡ number a b self.entry.rest.now self.entry.at }
    {
        let [first, ..] = *self.rest else {
            return Err(self.fault(Refusal::Malformed));
        };
        if !first.is_ascii_digit() {
            return Err(self.fault(Refusal::Malformed));
        }
        let room = if first == b'0' { 0 } else { MOST_DIGITS - 1 };
        self.after(1).digits(a, b, room, (first - b'0') as usize)
    }

    // A number from `lo` to `hi`, judged once its separator has been read.
    pub fn ranged(self, separator: u8, lo: usize, hi: usize) -> Result<(usize, Place<'a>), Fault>
        ensures { got_of (λ v. v) result ≡ ranged separator lo hi self.entry.rest.now self.entry.at }
    {
        let (read, after) = self.number(separator, separator)?;
        if lo <= read.value && read.value <= hi {
            Ok((read.value, after))
        } else {
            Err(self.fault(Refusal::Outside))
        }
    }

    // A line of a label and a number from `lo` to `hi`.
    pub fn field(self, name: &[u8], lo: usize, hi: usize) -> Result<(usize, Place<'a>), Fault>
        ensures { got_of (λ v. v) result ≡ field name.now lo hi self.entry.rest.now self.entry.at }
    {
        self.label(name)?.ranged(b'\n', lo, hi)
    }
}
