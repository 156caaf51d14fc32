// The five lines before the processors'.
ghost use Rattle.std.specs.Prelude.{◌≡◌};
ghost use Rattle.rules.specs.File.{front};
ghost use Rattle.tokens.specs.TokenView.{got_of};
ghost use Rattle.reader.specs.LineView.{head_of};

use crate::head::Head;
use settings::{LEAST_PROCS, MOST_BUDGET, MOST_PROCS, MOST_TICKET};
use tokens::{Fault, Place};

#[tactic(auto, unfolding(rules::specs::File::front))]
pub(crate) fn front(p: Place<'_>) -> Result<(Head, Place<'_>), Fault>
    ensures { got_of head_of result ≡ front p.entry.rest.now p.entry.at }
{
    let (algo, p) = p.label(b"algo=")?.name()?;
    let (procs, p) = p.field(b"procs=", LEAST_PROCS as usize, MOST_PROCS)?;
    let (home, p) = p.field(b"home=", 0, procs - 1)?;
    let (ticket, p) = p.field(b"ticket=", 0, MOST_TICKET as usize)?;
    let (budget, p) = p.field(b"budget=", 0, MOST_BUDGET as usize)?;
    let head = Head {
        algo,
        procs: procs as u16,
        home: home as u16,
        ticket: ticket as u32,
        budget: budget as u32,
    };
    Ok((head, p))
}
