// Puts the bytes into a lent buffer, from a place on: a cursor whose promise is the buffer, whole.
ghost use Rattle.std.specs.Prelude.{◌≡◌, ◌+◌, ◌≤◌, length};
ghost use Rattle.rules.specs.File.{decimal};
ghost use Rattle.writer.specs.SinkView.{over, pen_room, pen_put};
ghost use Rattle.writer.specs.Kept.{pen_laws};

use crate::sink::Sink;

#[derive(Drop)]
pub(crate) struct Pen<'a> {
    pub(crate) out: &'a mut [u8],
    pub(crate) at: usize,
}

impl Sink for Pen<'_> {
    ghost room = { pen_room };

    ghost put = { pen_put };

    ghost laws = { pen_laws };

    fn put(&mut self, text: &[u8]) {
        let end = self.at + text.len();
        self.out[self.at..end].copy_from_slice(text);
        self.at = end;
    }

    fn byte(&mut self, byte: u8) {
        self.out[self.at] = byte;
        self.at += 1;
    }

    fn digits(&mut self, n: usize) {
        if n < 10 {
            self.byte(b'0' + (n as u8));
        } else {
            self.at = put_long(self.out, self.at, n);
        }
    }
}

// Digit by digit, as the rules have a number, the first two at once. The answer is the place after them.
fn put_long(out: &mut [u8], at: usize, n: usize) -> usize
    requires long { 10 ≤ n }
    requires room { at + length (decimal n) ≤ length out.old }
    ensures bytes { out.new ≡ over out.old at (decimal n) }
    ensures end { result ≡ at + length (decimal n) }
{
    if n < 100 {
        out[at] = b'0' + ((n / 10) as u8);
        out[at + 1] = b'0' + ((n % 10) as u8);
        return at + 2;
    }
    let last = put_long(out, at, n / 10);
    out[last] = b'0' + ((n % 10) as u8);
    last + 1
}
