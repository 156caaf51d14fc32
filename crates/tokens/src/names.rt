// The machine's name.
ghost use Rattle.std.specs.Prelude.{◌≡◌, take};
ghost use Rattle.std.specs.List.{prefix_len};
ghost use Rattle.rules.specs.Bounds.{most_letters};
ghost use Rattle.rules.specs.Rule.{is_lower};

use crate::fault::Fault;
use crate::place::Place;
use settings::{Algo, Refusal};

const MOST_LETTERS: usize = 8;

// With how many lower-case letters a text begins, of which at most 8 are counted.
fn letters(text: &[u8]) -> usize
    ensures { result ≡ prefix_len is_lower (take most_letters text.now) }
{
    text.iter()
        .take(MOST_LETTERS)
        .take_while(|x| x.is_ascii_lowercase())
        .count()
}

impl<'a> Place<'a> {
    ghost use Rattle.settings.specs.Numbers.{algo_number};
    ghost use Rattle.rules.specs.Rule.{word};
    ghost use Rattle.rules.specs.File.{name};
    ghost use Rattle.tokens.specs.TokenView.{got_of};

    // 1 to 8 lower-case letters, and the place after their line feed.
    #[tactic(auto, using(crate::proofs::Spelling::words))]
    fn word(self) -> Result<(&'a [u8], Place<'a>), Fault>
        ensures { got_of (λ w. w.now) result ≡ word self.entry.rest.now self.entry.at }
    {
        let n = letters(self.rest);
        if n == 0 {
            return Err(self.fault(Refusal::Malformed));
        }
        let after = self.after(n).label(b"\n")?;
        Ok((&self.rest[..n], after))
    }

    // A known name.
    pub fn name(self) -> Result<(Algo, Place<'a>), Fault>
        ensures { got_of algo_number result ≡ name self.entry.rest.now self.entry.at }
    {
        let (word, after) = self.word()?;
        let algo = Algo::named(word).ok_or(self.fault(Refusal::Unknown))?;
        Ok((algo, after))
    }
}
