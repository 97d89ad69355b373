//! Scripts on images with their expected results, for `apply` and `check`.

use super::calls::{Call, by_parts, expect_done};
use super::images::{joined, script_of};
use cd_image::Tally;
use cd_sector::Sector;
use std::alloc::Global;
use std::process::Abort;
use std::test::Fail;

/// The most bytes that pass in a call: a few, and any number.
pub const PARTS: &[usize] = &[1, 2, 2351, 2353, usize::MAX];

/// Converts a count of the tests, which is small.
fn small(count: usize) -> u32 {
    u32::try_from(count).unwrap_or(u32::MAX)
}

/// The counts of the lines of a whole log, and the number of sectors.
fn tally_of(log: &str, sectors: usize) -> Tally {
    let is_applied = |line: &&str| line.ends_with(": applied");
    let is_refused = |line: &&str| line.contains(": refused: ");
    Tally {
        applied: small(log.lines().filter(is_applied).count()),
        refused: small(log.lines().filter(is_refused).count()),
        sectors: small(sectors),
        tail: 0,
    }
}

/// Applies a script to sectors from block 0 on, and then checks it, with few bytes per call and with any number.
pub fn expect_sectors(
    rt: &impl Abort,
    alloc: Global,
    text: &str,
    before: &[Sector],
    log: &str,
    after: &[Sector],
) -> Result<(), Fail> {
    let script = script_of(alloc, text)?;
    let image = joined(alloc, before)?;
    let out = joined(alloc, after)?;
    let tally = tally_of(log, before.len());
    let call = Call {
        image: &image,
        text,
        script: &script,
        base: 0,
        carry: false,
        out: &out,
        log: log.as_bytes(),
    };
    for most in PARTS {
        let limits = by_parts(*most, *most, *most);
        expect_done(rt, alloc, &call, tally, &limits, *most)?;
    }
    Ok(())
}
