// Settings and a schedule that are in order, and the machine that they name.
ghost use Rattle.std.specs.Prelude.{◌≡◌, true};
ghost use Rattle.rules.specs.Calls.{refusal};
ghost use Rattle.settings.specs.Numbers.{algo_number};
ghost use Rattle.settings.specs.View.{settings_of};

use crate::algo::Algo;
use crate::record::Settings;

#[derive(Clone, Copy)]
pub struct Trial<'a> {
    pub algo: Algo,
    pub settings: Settings,
    pub schedule: &'a [u16],
    ghost named: { settings.algo ≡ algo_number algo },
    ghost in_order: { refusal (settings_of settings) schedule.now true ≡ 0 },
}
