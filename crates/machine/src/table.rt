// The table: a record for each processor, lent by the caller.
ghost use Rattle.std.specs.Prelude.{◌≡◌, ◌*◌, ◌+◌, ◌<◌, ◌≤◌, length, map};
ghost use Rattle.turns.specs.CountView.{numbers};
ghost use Rattle.machine.specs.RunView.{record_of, record_at, records_at};

// Passages done, remote references, the most in any one passage begun, spins, idle turns.
#[derive(Clone, Copy, Debug, Default, PartialEq, Eq)]
pub struct Record {
    pub done: u16,
    pub remote: u16,
    pub most: u16,
    pub spins: u16,
    pub idle: u16,
}

impl Record {
    // Of processor i's six numbers, by their place: of pieces that go beside a table that is written std's contracts know the lengths only.
    fn of(sums: &[u16], i: usize) -> Record
        requires { i * numbers + 5 < length sums.now }
        ensures { record_of result ≡ record_at sums.now i }
    {
        let at = i * 6;
        Record {
            done: sums[at],
            remote: sums[at + 1],
            most: sums[at + 2],
            spins: sums[at + 4],
            idle: sums[at + 5],
        }
    }
}

// Each record is made of its processor's numbers.
#[tactic(auto, using(crate::proofs::Tables::one_more))]
pub(crate) fn fill(table: &mut [Record], sums: &[u16])
    requires { length table.old * numbers ≤ length sums.now }
    ensures { map record_of table.new ≡ records_at sums.now (length table.old) }
{
    for (i, record) in table.iter_mut().enumerate() {
        *record = Record::of(sums, i);
    }
}
