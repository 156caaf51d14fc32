// The lines of a run.
use machine::{Answer, Record};
use std::fmt;
use turns::Kind;

// table: the processors' records. events: those that were written.
#[derive(Clone, Copy)]
pub struct Run<'a> {
    pub answer: Answer,
    pub table: &'a [Record],
    pub events: &'a [u16],
}

// An entry of document 01's row of events, which holds numbers: the kind × 256 + the processor.
#[derive(Clone, Copy)]
struct Event(u16);

// The first letter of join, grant, release, arrive or leave, and the processor.
impl fmt::Display for Event {
    fn fmt<W: fmt::Write>(&self, f: &mut fmt::Formatter<W>) -> fmt::Result {
        let letter = match Kind::try_from(self.0 / 256) {
            Ok(Kind::Join) => "j",
            Ok(Kind::Grant) => "g",
            Ok(Kind::Release) => "r",
            Ok(Kind::Arrive) => "a",
            Ok(Kind::Leave) => "l",
            Err(_) => "?",
        };
        f.write_str(letter)?;
        f.write(self.0 % 256)
    }
}

impl fmt::Display for Run<'_> {
    fn fmt<W: fmt::Write>(&self, f: &mut fmt::Formatter<W>) -> fmt::Result {
        let Run {
            answer,
            table,
            events,
        } = *self;
        let stop = u8::from(answer.stop);
        writeln!(
            f,
            "turns={}\nstop={stop}\nremote={}",
            answer.turns, answer.total
        )?;
        for (i, r) in table.iter().enumerate() {
            writeln!(
                f,
                "p{i}={},{},{},{},{}",
                r.done, r.remote, r.most, r.spins, r.idle
            )?;
        }
        f.write_str("events=")?;
        f.write_joined(events.iter().map(|&e| Event(e)), ",")?;
        f.write_str("\n")
    }
}
