//! Listings and audits with readers and writers of std that fail.

use super::holds;
use super::messages::READ_FAILED;
use cd_image::{FailAfter, FromRead, SliceSink, ToWrite, ZeroSource};
use cd_program::{run_audit, run_list};
use std::io::{self, ErrorKind, Read, Write};
use std::process::Abort;

/// A writer that accepts all bytes, and cannot pass them on, as on a full disk.
#[derive(Drop)]
pub struct Unflushed;

impl Write for Unflushed {
    fn write(&mut self, buf: &[u8]) -> io::Result<usize> {
        Ok(buf.len())
    }

    fn flush(&mut self) -> io::Result<()> {
        Err(io::Error::from(ErrorKind::Other))
    }
}

#[test]
fn a_failed_flush(rt: HostRuntime) {
    let mut out = ToWrite::new(Unflushed);
    let listed = run_list(&mut ZeroSource::new(2352), 0, &mut out);
    let mut out = ToWrite::new(Unflushed);
    let audited = run_audit(&mut ZeroSource::new(2352), 0, &mut out);
    let mut out = ToWrite::new(Unflushed);
    let mut image = FailAfter::new(ZeroSource::new(2352), 5);
    let unread = run_audit(&mut image, 0, &mut out);
    assert!(rt; [listed, audited, unread] == [2, 2, 2]);
}

/// A reader that has no bytes, or fails.
#[derive(Drop)]
struct Nothing {
    fails: bool,
}

impl Read for Nothing {
    fn read(&mut self, _buf: &mut [u8]) -> io::Result<usize> {
        if self.fails {
            return Err(io::Error::from(ErrorKind::Other));
        }
        Ok(0)
    }
}

/// Asserts the status and the text of a listing of such a reader.
fn expect_listed(rt: &impl Abort, fails: bool, status: u8, text: &str) {
    let mut space = [0; 64];
    let mut out = SliceSink::new(&mut space);
    let came = run_list(&mut FromRead::new(Nothing { fails }), 0, &mut out);
    let is_due = came == status && out.written() == text.as_bytes();
    holds(rt, is_due, text);
}

#[test]
fn a_failed_read_and_an_end(rt: HostRuntime) {
    expect_listed(&rt, true, 2, READ_FAILED);
    expect_listed(&rt, false, 0, "sectors 0 tail 0\n");
}
