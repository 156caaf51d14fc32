// The lines of a file, put into a sink.
ghost use Rattle.std.specs.Prelude.{◌≡◌, ◌≤◌, ◌<◌, [], ◌∷◌, ◌++◌, length};
ghost use Rattle.rules.specs.Bounds.{most_procs};
ghost use Rattle.rules.specs.File.{entries_text, rows_text, turns_text, text};
ghost use Rattle.rules.specs.Machines.{bytes};
ghost use Rattle.rules.specs.Rule.{feed};
ghost use Rattle.settings.specs.Numbers.{algo_name, algo_number};
ghost use Rattle.settings.specs.View.{settings_of};

use crate::sink::Sink;
use settings::{Algo, Settings};

// Processor i's line.
fn put_entries<S: Sink>(sink: &mut S, i: usize, rounds: u16, hold: u16)
    requires { length (entries_text i rounds hold) < S.room sink.old }
    ensures { sink.new ≡ S.put sink.old (entries_text i rounds hold) }
{
    sink.byte(b'p');
    sink.number(i, b'=');
    sink.number(rounds as usize, b',');
    sink.number(hold as usize, b'\n');
}

// The processors' lines, of 64 at most.
fn put_rows<S: Sink>(sink: &mut S, s: &Settings)
    requires procs { s.now.procs ≤ most_procs }
    requires room { length (rows_text s.now.procs 0 s.now.rounds s.now.hold) < S.room sink.old }
    ensures { sink.new ≡ S.put sink.old (rows_text s.now.procs 0 s.now.rounds s.now.hold) }
{
    let entries = s.rounds.iter().zip(s.hold.iter());
    for (i, (&rounds, &hold)) in entries.enumerate().take(s.procs as usize) {
        put_entries(sink, i, rounds, hold);
    }
}

// The turns, or nothing, and a line feed.
fn put_turns<S: Sink>(sink: &mut S, turns: &[u16])
    requires { length (turns_text turns.now) < S.room sink.old }
    ensures { sink.new ≡ S.put sink.old (turns_text turns.now) }
{
    let Some((last, before)) = turns.split_last() else {
        sink.byte(b'\n');
        return;
    };
    for turn in before {
        sink.number(*turn as usize, b',');
    }
    sink.number(*last as usize, b'\n');
}

// The whole file. Of the parts of a trial and not of a trial: so the search finds all that is to be proved.
#[tactic(auto, unfolding(rules::specs::File::text, settings::specs::Numbers::algo_name))]
pub(crate) fn put_file<S: Sink>(sink: &mut S, algo: Algo, s: &Settings, schedule: &[u16])
    requires algo { s.now.algo ≡ algo_number algo }
    requires procs { s.now.procs ≤ most_procs }
    requires room { length (text (settings_of s.now) schedule.now) < S.room sink.old }
    ensures { sink.new ≡ S.put sink.old (text (settings_of s.now) schedule.now) }
{
    sink.put(b"algo=");
    sink.put(algo.name());
    sink.byte(b'\n');
    sink.field(b"procs=", s.procs as usize);
    sink.field(b"home=", s.home as usize);
    sink.field(b"ticket=", s.ticket as usize);
    sink.field(b"budget=", s.budget as usize);
    put_rows(sink, s);
    sink.put(b"turns=");
    put_turns(sink, schedule);
}
