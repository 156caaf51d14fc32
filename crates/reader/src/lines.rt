// The processors' lines.
ghost use Rattle.std.specs.Prelude.{◌≡◌, ◌<◌, ◌≤◌};
ghost use Rattle.rules.specs.Bounds.{most_procs};
ghost use Rattle.rules.specs.Rule.{lit};
ghost use Rattle.rules.specs.File.{label, entries};
ghost use Rattle.settings.specs.View.{settings_of};
ghost use Rattle.tokens.specs.TokenView.{got_of, place_of};
ghost use Rattle.reader.specs.LineView.{head_of, lined};

use crate::head::Head;
use settings::{MOST_HOLD, MOST_PROCS, MOST_ROUNDS, Settings};
use tokens::{Fault, Place};

// `p`, the processor's number and `=`. A number has two digits at most.
#[tactic(auto, using(crate::proofs::Lining::labels))]
fn line_label(p: Place<'_>, i: usize) -> Result<Place<'_>, Fault>
    requires { i < most_procs }
    ensures { place_of result ≡ lit (label i) p.entry.rest.now p.entry.at }
{
    if i < 10 {
        return p.label(&[b'p', b'0' + (i as u8), b'=']);
    }
    p.label(&[b'p', b'0' + ((i / 10) as u8), b'0' + ((i % 10) as u8), b'='])
}

// Processor i's line: its rounds and its hold.
fn entries(p: Place<'_>, i: usize) -> Result<((u16, u16), Place<'_>), Fault>
    requires { i < most_procs }
    ensures { got_of (λ v. v) result ≡ entries i p.entry.rest.now p.entry.at }
{
    let (rounds, p) = line_label(p, i)?.ranged(b',', 0, MOST_ROUNDS as usize)?;
    let (hold, p) = p.ranged(b'\n', 0, MOST_HOLD as usize)?;
    Ok(((rounds as u16, hold as u16), p))
}

// The lines of all processors, which make the settings whole.
#[tactic(auto, unfolding(rules::specs::File::rows))]
pub(crate) fn lines(first: Place<'_>, h: Head) -> Result<(Settings, Place<'_>), Fault>
    ensures { got_of settings_of result ≡ lined (head_of h) first.entry.rest.now first.entry.at }
{
    // By their index: of two rows that are changed together std's contracts know no more than their lengths.
    let mut rounds = [0; MOST_PROCS];
    let mut hold = [0; MOST_PROCS];
    let mut p = first;
    for i in 0..h.procs as usize {
        let ((its_rounds, its_hold), after) = entries(p, i)?;
        rounds[i] = its_rounds;
        hold[i] = its_hold;
        p = after;
    }
    let settings = Settings {
        algo: h.algo.into(),
        procs: h.procs,
        home: h.home,
        ticket: h.ticket,
        budget: h.budget,
        rounds,
        hold,
    };
    Ok((settings, p))
}
