// The turns, gone over once: judged and kept.
ghost use Rattle.std.specs.Prelude.{◌≡◌, ◌≤◌, length, take, IfOk};
ghost use Rattle.rules.specs.Bounds.{most_procs, most_turns};
ghost use Rattle.rules.specs.File.{turns};
ghost use Rattle.tokens.specs.TokenView.{got_of};

use settings::Refusal;
use tokens::{Fault, Place};

// Of procs at most 64, which the head knows. How many turns there are; the turns go to a row of the reader's own. For one turn, too many comes before a stray processor.
#[tactic(auto, using(crate::proofs::Passing::gathers))]
pub(crate) fn gather<'a>(
    first: Place<'a>,
    procs: usize,
    kept: &mut [u16],
) -> Result<(usize, Place<'a>), Fault>
    requires procs_le_most_procs { procs ≤ most_procs }
    requires kept_len { length kept.old ≡ most_turns }
    ensures turns { got_of (λ n. take n kept.new) result ≡ turns procs first.entry.rest.now first.entry.at }
    ensures room { IfOk result (λ v. v.0 ≤ most_turns) }
{
    if let Ok(after) = first.label(b"\n") {
        return Ok((0, after));
    }
    let mut p = first;
    for (i, turn) in kept.iter_mut().enumerate() {
        let (read, after) = p.number(b',', b'\n')?;
        if read.value >= procs {
            return Err(p.fault(Refusal::Stray));
        }
        *turn = read.value as u16;
        if read.separator == b'\n' {
            return Ok((i + 1, after));
        }
        p = after;
    }
    p.number(b',', b'\n')?;
    Err(p.fault(Refusal::TooMany))
}
