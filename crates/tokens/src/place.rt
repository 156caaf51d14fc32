// A place of a file, from which it is read on.
ghost use Rattle.std.specs.Prelude.{◌≡◌, ◌+◌, ◌^◌, ◌<◌, length, nat_eq};
ghost use Rattle.std.specs.List.{common_prefix_len};

use crate::fault::Fault;
use settings::Refusal;

#[derive(Clone, Copy, Debug)]
pub struct Place<'a> {
    // The bytes from it on.
    pub rest: &'a [u8],
    pub at: usize,
    pub ghost fits: { at + length rest.now < 2 ^ 64 },
}

impl<'a> Place<'a> {
    ghost use Rattle.std.specs.Prelude.{◌≤◌, drop};
    ghost use Rattle.rules.specs.Rule.{lit, end};
    ghost use Rattle.settings.specs.declared.refusal.Refusal.TheVariants.{Malformed};
    ghost use Rattle.tokens.specs.TokenView.{place_of};

    // The first byte of a file.
    pub fn start(file: &'a [u8]) -> Place<'a>
        ensures rest { result.rest.now ≡ file.now }
        ensures at { result.at ≡ 0 }
    {
        Place { rest: file, at: 0 }
    }

    // The place n bytes on.
    pub(crate) fn after(self, n: usize) -> Place<'a>
        requires { n ≤ length self.rest.now }
        ensures rest { result.rest.now ≡ drop n self.entry.rest.now }
        ensures at { result.at ≡ self.entry.at + n }
    {
        Place {
            rest: &self.rest[n..],
            at: self.at + n,
        }
    }

    // A fault of what begins at this place.
    pub fn fault(self, refusal: Refusal) -> Fault
        ensures refusal { result.refusal ≡ refusal }
        ensures place { result.place ≡ self.entry.at }
    {
        Fault {
            refusal,
            place: self.at,
        }
    }

    // The bytes leave the form of a file n bytes on.
    pub(crate) fn malformed(self, n: usize) -> Fault
        requires { n ≤ length self.rest.now }
        ensures refusal { result.refusal ≡ Malformed }
        ensures place { result.place ≡ self.entry.at + n }
    {
        Fault {
            refusal: Refusal::Malformed,
            place: self.at + n,
        }
    }

    // Exactly the bytes of the label.
    #[tactic(auto, using(crate::proofs::Stepping::labels))]
    pub fn label(self, label: &[u8]) -> Result<Place<'a>, Fault>
        ensures { place_of result ≡ lit label.now self.entry.rest.now self.entry.at }
    {
        let same = alike(self.rest, label);
        if same < label.len() {
            return Err(self.malformed(same));
        }
        Ok(self.after(same))
    }

    // Nothing more.
    pub fn end(self) -> Result<Place<'a>, Fault>
        ensures { place_of result ≡ end self.entry.rest.now self.entry.at }
    {
        if self.rest.is_empty() {
            Ok(self)
        } else {
            Err(self.fault(Refusal::Malformed))
        }
    }
}

// How many bytes the two have in common from their beginnings on.
fn alike(a: &[u8], b: &[u8]) -> usize
    ensures { result ≡ common_prefix_len nat_eq a.now b.now }
{
    a.iter().zip(b).take_while(|(x, y)| x == y).count()
}
