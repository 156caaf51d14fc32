// Where the bytes of a file go.
ghost use Rattle.std.specs.Prelude.{ℕ, ◌≡◌, ◌<◌, List, [], ◌∷◌, ◌++◌, length};
ghost use Rattle.rules.specs.File.{decimal, field_text};
ghost use Rattle.writer.specs.SinkView.{SinkLaws};

pub(crate) trait Sink {
    // A text that is shorter than this fits.
    ghost room: { Self → ℕ };

    // What it is after a text.
    ghost put: { Self → List ℕ → Self };

    fn put(&mut self, text: &[u8])
        requires { length text.now < room self.old }
        ensures { self.new ≡ put self.old text.now };

    fn byte(&mut self, byte: u8)
        requires { 1 < room self.old }
        ensures { self.new ≡ put self.old (byte ∷ []) };

    fn digits(&mut self, n: usize)
        requires { length (decimal n) < room self.old }
        ensures { self.new ≡ put self.old (decimal n) };

    ghost laws: { SinkLaws room put };

    // A number and its separator.
    final fn number(&mut self, n: usize, separator: u8)
        requires { length (decimal n ++ separator ∷ []) < room self.old }
        ensures { self.new ≡ put self.old (decimal n ++ separator ∷ []) }
    {
        self.digits(n);
        self.byte(separator);
    }

    // A line of a label and a number.
    final fn field(&mut self, label: &[u8], n: usize)
        requires { length (field_text label.now n) < room self.old }
        ensures { self.new ≡ put self.old (field_text label.now n) }
    {
        self.put(label);
        self.number(n, b'\n');
    }
}
