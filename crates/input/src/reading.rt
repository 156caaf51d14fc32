// From standard input into a lent buffer.
ghost use Rattle.std.specs.Prelude.{◌≤◌, length};

use std::io;
use std::io::{Cursor, Read};

// Reads until the buffer is full, the input ends or a read fails, and answers the start of the buffer that it filled.
pub fn read_full<'a>(rt: &impl Input, buffer: &'a mut [u8]) -> &'a [u8]
    ensures { length result.now ≤ length buffer.old }
{
    let mut reader = rt.reader().take(buffer.len() as u64);
    let mut room = Cursor::new(&mut *buffer);
    let _ = io::copy(&mut reader, &mut room);
    let count = room.position() as usize;
    &buffer[..count.min(buffer.len())]
}
