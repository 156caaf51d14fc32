// What the five lines before the processors' say.
ghost use Rattle.std.specs.Prelude.{◌≤◌};
ghost use Rattle.rules.specs.Bounds.{most_procs};

use settings::Algo;

#[derive(Clone, Copy)]
pub(crate) struct Head {
    pub(crate) algo: Algo,
    pub(crate) procs: u16,
    pub(crate) home: u16,
    pub(crate) ticket: u32,
    pub(crate) budget: u32,
    ghost few: { procs ≤ most_procs },
}
