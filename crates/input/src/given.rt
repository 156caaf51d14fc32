// What is left of the bytes that were read: numbers, each in five columns with a separator after it, and rows of bytes.
ghost use Rattle.std.specs.Prelude.{◌≡◌, ◌≤◌, take, drop};

pub const WIDTH: usize = 6;

#[derive(Clone, Copy)]
pub struct Given<'a> {
    pub left: &'a [u8],
}

// What is no digit counts as 0, and so does a column past the end.
fn digit(columns: &[u8], i: usize) -> u32
    ensures { result ≤ 9 }
{
    match columns.get(i) {
        Some(b) if b.is_ascii_digit() => (*b - b'0') as u32,
        _ => 0,
    }
}

impl<'a> Given<'a> {
    pub fn new(input: &'a [u8]) -> Given<'a>
        ensures { result.left.now ≡ input.now }
    {
        Given { left: input }
    }

    // The next bytes; fewer where the input ends before.
    pub fn bytes(&mut self, count: usize) -> &'a [u8]
        ensures taken { result.now ≡ take count self.old.left.now }
        ensures left { self.new.left.now ≡ drop count self.old.left.now }
    {
        let count = count.min(self.left.len());
        let (taken, left) = self.left.split_at(count);
        self.left = left;
        taken
    }

    // The next number: five columns, and so five digits at most.
    pub fn number(&mut self) -> u32
        ensures bound { result ≤ 99999 }
        ensures left { self.new.left.now ≡ drop WIDTH self.old.left.now }
    {
        let columns = self.bytes(WIDTH);
        let high = digit(columns, 0) * 100 + digit(columns, 1) * 10 + digit(columns, 2);
        high * 100 + digit(columns, 3) * 10 + digit(columns, 4)
    }

    pub fn size(&mut self) -> usize
        ensures bound { result ≤ 99999 }
        ensures left { self.new.left.now ≡ drop WIDTH self.old.left.now }
    {
        self.number() as usize
    }

    // The next number, or 65535 where it is larger.
    pub fn small(&mut self) -> u16
        ensures { self.new.left.now ≡ drop WIDTH self.old.left.now }
    {
        u16::try_from(self.number()).unwrap_or(u16::MAX)
    }
}
