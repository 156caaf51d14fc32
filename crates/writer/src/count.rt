// Counts the bytes.
ghost use Rattle.std.specs.Prelude.{◌≡◌, length};
ghost use Rattle.rules.specs.File.{decimal};
ghost use Rattle.writer.specs.SinkView.{count_room, count_put};
ghost use Rattle.writer.specs.Kept.{count_laws};

use crate::sink::Sink;

#[derive(Drop)]
pub(crate) struct Count {
    pub(crate) bytes: usize,
}

// How many digits a number has.
#[tactic(auto, using(crate::proofs::Digits::digits))]
fn digits_of(n: usize) -> usize
    ensures { result ≡ length (decimal n) }
{
    if n < 10 {
        return 1;
    }
    if n < 100 {
        return 2;
    }
    if n < 1000 {
        return 3;
    }
    if n < 10000 {
        return 4;
    }
    4 + digits_of(n / 10000)
}

impl Sink for Count {
    ghost room = { count_room };

    ghost put = { count_put };

    ghost laws = { count_laws };

    fn put(&mut self, text: &[u8]) {
        self.bytes += text.len();
    }

    fn byte(&mut self, _byte: u8) {
        self.bytes += 1;
    }

    fn digits(&mut self, n: usize) {
        self.bytes += digits_of(n);
    }
}
