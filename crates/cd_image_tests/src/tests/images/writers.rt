//! Writers of std.

use std::io::{self, Write};

/// A writer that accepts no bytes.
#[derive(Drop)]
pub struct Full;

impl Write for Full {
    fn write(&mut self, _buf: &[u8]) -> io::Result<usize> {
        Ok(0)
    }

    fn flush(&mut self) -> io::Result<()> {
        Ok(())
    }
}
