// The lines, gathered in a lent buffer, so that one call writes them.
use std::fmt;

#[derive(Drop)]
pub(crate) struct Page<'a> {
    pub(crate) out: &'a mut [u8],
    pub(crate) count: usize,
}

impl Page<'_> {
    // What was gathered.
    pub(crate) fn text(&self) -> &[u8] {
        &self.out[..self.count.min(self.out.len())]
    }
}

impl fmt::Write for Page<'_> {
    // What finds no room is left out; the buffer that `play` lends has room for the longest lines.
    fn write_str(&mut self, s: &str) -> fmt::Result {
        for byte in s.as_bytes() {
            if self.count < self.out.len() {
                self.out[self.count] = *byte;
                self.count += 1;
            }
        }
        Ok(())
    }
}
