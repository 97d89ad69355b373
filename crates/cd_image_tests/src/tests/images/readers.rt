//! Readers of std.

use std::io::{self, Read};

/// A reader that returns 0 once, after a number of bytes `00`, and then returns bytes `00` without an end, as a terminal can. A caller that
/// stops at the end sees none of the later bytes.
#[derive(Drop)]
pub struct Resuming {
    /// The number of bytes before the end; `None` after it.
    left: Option<usize>,
}

impl Resuming {
    pub fn new(count: usize) -> Self {
        Resuming { left: Some(count) }
    }
}

impl Read for Resuming {
    fn read(&mut self, buf: &mut [u8]) -> io::Result<usize> {
        let n = match self.left {
            Some(0) => {
                self.left = None;
                0
            }
            Some(left) => {
                let n = left.min(buf.len());
                self.left = Some(left - n);
                n
            }
            None => buf.len(),
        };
        buf[..n].fill(0);
        Ok(n)
    }
}
