// An accepted file, written back by `text::write`.
use crate::stored::MOST_LENGTH;
use settings::{Refusal, Settings};
use text::write;

// A byte that no file has.
const BLANK: u8 = 238;

fn is_blank(out: &[u8]) -> bool {
    out.iter().all(|b| *b == BLANK)
}

// Where there is room for one byte less, nothing is written.
fn is_refused(s: Settings, schedule: &[u16], out: &mut [u8]) -> bool {
    write(s, schedule, out) == Err(Refusal::TooShort) && is_blank(out)
}

// Where there is room for one byte more, the file is written, and that byte stays.
fn is_written(s: Settings, schedule: &[u16], file: &[u8], out: &mut [u8]) -> bool {
    write(s, schedule, out) == Ok(file.len()) && out.strip_prefix(file).is_some_and(is_blank)
}

pub fn is_back(s: Settings, schedule: &[u16], file: &[u8]) -> bool {
    let n = file.len().min(MOST_LENGTH);
    let mut out = [BLANK; MOST_LENGTH + 1];
    n > 0
        && is_refused(s, schedule, &mut out[..n - 1])
        && is_written(s, schedule, file, &mut out[..n + 1])
}
