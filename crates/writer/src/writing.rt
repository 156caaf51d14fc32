// The settings file, written.
ghost use Rattle.std.specs.Prelude.{◌≡◌, length};
ghost use Rattle.rules.specs.File.{text};
ghost use Rattle.settings.specs.View.{settings_of};
ghost use Rattle.writer.specs.WriteView.{WriteIs};

use crate::count::Count;
use crate::file::put_file;
use crate::pen::Pen;
use settings::{Refusal, Settings, Trial, checked};

fn file_length(trial: &Trial<'_>) -> usize
    ensures { result ≡ length (text (settings_of trial.now.settings) trial.now.schedule.now) }
{
    let mut count = Count { bytes: 0 };
    put_file(&mut count, trial.algo, &trial.settings, trial.schedule);
    count.bytes
}

// Nothing is written before the file is known to fit. The answer is how many bytes were written.
#[tactic(auto, using(crate::proofs::Writes::ways))]
pub fn write(s: Settings, schedule: &[u16], out: &mut [u8]) -> Result<usize, Refusal>
    ensures { WriteIs (settings_of s) schedule.now out.old out.new result }
{
    let trial = checked(s, schedule)?;
    if out.len() < file_length(&trial) {
        return Err(Refusal::TooShort);
    }
    let mut pen = Pen { out, at: 0 };
    put_file(&mut pen, trial.algo, &trial.settings, trial.schedule);
    Ok(pen.at)
}
