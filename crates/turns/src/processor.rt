// A processor, by its number.
ghost use Rattle.std.specs.Prelude.{◌<◌};
ghost use Rattle.rules.specs.Bounds.{most_procs};

#[derive(Clone, Copy, Debug, PartialEq, Eq)]
pub struct Processor {
    pub number: usize,
    pub ghost below: { number < most_procs },
}
