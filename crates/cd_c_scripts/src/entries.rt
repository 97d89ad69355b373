//! Reads a script into entries, one for each patch, in the order of application.

ghost use Rattle.std.specs.Prelude.{◌≡◌, ℕ, ◌<◌, ◌≤◌, Err, IfErr, IfOk, List, Some, drop, length, take};
ghost use Rattle.std.specs.List.{slice_set};
ghost use Rattle.std.specs.List.Sorted.{IsNonDecreasingBy, IsPermutation};
ghost use Rattle.cd_script.specs.Order.{order};
ghost use Rattle.cd_script.specs.Script.{script};
ghost use Rattle.cd_script.specs.PatchForm.{Patch as ThePatch};
ghost use Rattle.cd_script.specs.declared.version.Version.{Version as TheVersion};
ghost use Rattle.cd_c_scripts.specs.Lines.{head_numbered};
ghost use Rattle.cd_c_scripts.specs.Indexing.{IndexesBy};
ghost use Rattle.cd_script.specs.ByLine.{meaning_at};
ghost use Rattle.cd_c_scripts.specs.Entries.{AllBelow, AreEntries, IsIndexed, LinesRise, entry_key};
ghost use Rattle.cd_script.specs.Limits.{text_limit};
ghost use Rattle.cd_script.specs.Patch.{IsPatch};
ghost use Rattle.cd_patch.specs.Blocks.{block_limit, blocks_met};

use cd_patch::blocks_met_spelled;
use cd_script::{HexPatch, LineContent, ScriptFault, Version, first_line, read_line};

/// The entry of a patch in the index of a script, as C's `struct cdpatch_entry`.
#[derive(Clone, Copy)]
#[repr(C)]
pub struct Entry {
    /// The block in which the patch begins.
    pub block: u32,
    /// The number of its line in the script.
    pub number: u32,
    /// The offset of its line in the text.
    pub start: u32,
    /// The size of its line in bytes, without its end.
    pub size: u32,
    /// The number of blocks that it touches.
    pub blocks_met: u32,
    /// Room for a later release.
    pub spare: u32,
}

/// The result of indexing a script.
#[derive(Clone, Copy)]
pub(crate) struct ScriptIndex {
    /// The version in its head line.
    pub version: Version,
    /// The number of its patches.
    pub count: usize,
}

/// Proof step: the number of blocks that a patch touches, by the definition for patches.
pub(crate) fn blocks_met(patch: &HexPatch<'_>) -> u32
    requires { IsPatch patch.now }
    ensures number { result ≡ blocks_met patch.now }
    ensures some { 0 < result }
    ensures few { result ≤ block_limit }
{
    blocks_met_spelled(patch) as u32
}

/// Proof step: the number of a version, from which a call finds the version again.
pub(crate) fn version_number(version: Version) -> u32
    ensures { head_numbered result ≡ Some (Some version) }
{
    version.number()
}

/// Sorts entries by block and line.
fn sort(entries: &mut [Entry])
    ensures permutation { IsPermutation entries.old entries.new }
    ensures sorted { IsNonDecreasingBy entry_key entries.new }
{
    entries.sort_unstable_by_key(|entry| u64::from(entry.block) * 4294967296
        + u64::from(entry.number));
}

/// Proof step: sorts entries. Its contract says that this is the order of application.
fn put_in_order(entries: &mut [Entry])
    ensures size { length entries.new ≡ length entries.old }
    ensures order { (text : List ℕ) (version : TheVersion) (ps : List ThePatch)
        → LinesRise ps → AllBelow ps → AreEntries text version 0 entries.old ps
        → AreEntries text version 0 entries.new (order ps) }
{
    sort(entries);
}

/// Proof step: the rest of a text from a place on.
pub(crate) fn rest_of(text: &[u8], start: usize) -> &[u8]
    requires { start ≤ length text.now }
    ensures { result.now ≡ drop start text.now }
{
    &text[start..]
}

/// The state before a line: the version of the head line, and the number of patches so far.
#[derive(Clone, Copy)]
struct Found {
    version: Option<Version>,
    count: usize,
}

/// Writes an entry, if there is room for it.
fn put_entry(entries: &mut [Entry], place: usize, entry: Entry)
    ensures { entries.new ≡ slice_set entries.old place entry }
{
    if place < entries.len() {
        entries[place] = entry;
    }
}

/// Reads line `number`, which begins at `start` in the text. If it is a patch, counts it, and
/// writes its entry if there is room.
fn index_line(
    found: Found,
    number: u32,
    start: usize,
    line: &[u8],
    entries: &mut [Entry],
) -> Result<Found, ScriptFault>
    requires start { start ≤ text_limit }
    requires size { length line.now ≤ text_limit }
    requires few { found.count < 4294967296 }
    ensures { IndexesBy (meaning_at found.version number found.count line.now) found number start
        (length line.now) entries.old entries.new result }
{
    match read_line(found.version, number, found.count, line) {
        Err(fault) => Err(fault),
        Ok(LineContent::PassedOver) => Ok(found),
        Ok(LineContent::Head(named)) => Ok(Found {
            version: Some(named),
            count: found.count,
        }),
        Ok(LineContent::Patch(patch)) => {
            let entry = Entry {
                block: patch.block,
                number,
                start: start as u32,
                size: line.len() as u32,
                blocks_met: blocks_met(&patch),
                spare: 0,
            };
            put_entry(entries, found.count, entry);
            Ok(Found {
                version: found.version,
                count: found.count + 1,
            })
        }
    }
}

/// Puts the first `count` entries in the order of application, if there are that many.
fn put_first_in_order(entries: &mut [Entry], count: usize)
    ensures size { length entries.new ≡ length entries.old }
    ensures order { count ≤ length entries.old → (text : List ℕ) (version : TheVersion)
        (ps : List ThePatch) → LinesRise ps → AllBelow ps
        → AreEntries text version 0 (take count entries.old) ps
        → AreEntries text version 0 (take count entries.new) (order ps) }
{
    if count <= entries.len() {
        put_in_order(&mut entries[..count]);
    }
}

/// Indexes a script: writes an entry for each of its patches, as far as there is room.
pub(crate) fn index_script(text: &[u8], entries: &mut [Entry]) -> Result<ScriptIndex, ScriptFault>
    requires { length text.now ≤ text_limit }
    ensures indexed { IfOk result (λ index.
        IsIndexed text.now index.version index.count entries.new) }
    ensures size { length entries.new ≡ length entries.old }
    ensures few { IfOk result (λ index. index.count ≤ text_limit) }
    ensures fault { IfErr result (λ e. script text.now ≡ Err e) }
{
    let mut found = Found {
        version: None,
        count: 0,
    };
    let mut number = 0;
    let mut start = 0;
    while let Some(line) = first_line(rest_of(text, start)) {
        number += 1;
        let rest = rest_of(text, start);
        match index_line(found, number, start, &rest[..line.size], entries) {
            Err(fault) => return Err(fault),
            Ok(next) => found = next,
        }
        start += line.taken;
    }
    let count = found.count;
    let Some(named) = found.version else {
        return Err(ScriptFault::Head(number + 1));
    };
    put_first_in_order(entries, count);
    Ok(ScriptIndex {
        version: named,
        count,
    })
}
