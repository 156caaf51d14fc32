// A file in parts: its head, a row that is said over and over until the middle is full, and its tail.
ghost use Rattle.std.specs.Prelude.{◌≤◌};

use input::Given;

// More than document 01 allows, so that too many turns can be tried.
pub const MOST_LENGTH: usize = 51000;

// The lengths of the parts, and of the row.
#[derive(Clone, Copy)]
struct Parts {
    head: usize,
    row: usize,
    middle: usize,
    tail: usize,
}

impl Parts {
    fn length(self) -> usize
        ensures { result ≤ 51000 }
    {
        self.head
            .saturating_add(self.middle)
            .saturating_add(self.tail)
            .min(MOST_LENGTH)
    }

    // The bytes that are stored, and the line feed that follows them.
    fn stored(self) -> usize {
        self.head
            .saturating_add(self.row)
            .saturating_add(self.tail)
            .saturating_add(1)
    }

    // Where byte k of the file stands among the bytes that are stored.
    fn source(self, k: usize) -> usize {
        let over = k.saturating_sub(self.head);
        if k < self.head {
            k
        } else if over < self.middle {
            self.head.saturating_add(over % self.row.max(1))
        } else {
            self.head
                .saturating_add(self.row)
                .saturating_add(over.saturating_sub(self.middle))
        }
    }
}

// Fills lent bytes, and answers those that are the file. A byte past the end of the input is 0.
pub fn stored_file<'a>(given: &mut Given<'_>, file: &'a mut [u8; MOST_LENGTH]) -> &'a [u8] {
    let parts = Parts {
        head: given.size(),
        row: given.size(),
        middle: given.size(),
        tail: given.size(),
    };
    let stored = given.left;
    given.bytes(parts.stored());
    let file = &mut file[..parts.length()];
    for (k, byte) in file.iter_mut().enumerate() {
        *byte = stored.get(parts.source(k)).copied().unwrap_or(0);
    }
    file
}
