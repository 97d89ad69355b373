//! Worked scripts: the lines of their patches in order, their errors, and the messages for errors.

use super::holds;
use cd_script::ScriptFault::{
    Address, Head, Hex, Length, NoMemory, Number, Offset, TooMany, Verb, Words,
};
use cd_script::{
    LentBytes, MAX_PATCHES, MAX_TEXT, Patch, ScriptFault, is_patch, lend, parse, write_patch,
};
use std::alloc::{AllocError, Global};
use std::test::Fail;

/// A text, and the lines of its patches in order, or its error.
type Read = (&'static str, Result<&'static [u32], ScriptFault>);

const TEXTS: &[Read] = &[
    ("cdpatch 1\n", Ok(&[])),
    (
        "cdpatch 1\nset 5 0 41\nset 4 2047 4242\nset 5 1 43\n",
        Ok(&[3, 2, 4]),
    ),
    ("cdpatch 1\nset 0 9 41\nset 0 3 42\n", Ok(&[2, 3])), // the offset plays no part
    ("cdpatch 1\nrebuild 0\n", Ok(&[2])),
    ("cdpatch 01", Err(Head(1))),
    ("cdpatch 1 x", Err(Head(1))),
    ("# a\n\n", Err(Head(3))),
    ("cdpatch 1\nput 0 0 41", Err(Verb(2))),
    ("cdpatch 1\ncdpatch 1", Err(Verb(2))),
    ("cdpatch 1\nset 0 0", Err(Words(2))),
    ("cdpatch 1\nrebuild 0 0", Err(Words(2))),
    ("cdpatch 1\nset 0 0 41 was", Err(Words(2))),
    ("cdpatch 1\nset x 9999 4", Err(Number(2))), // the first word decides
    ("cdpatch 1\nset 1234567890 0 41", Err(Number(2))),
    ("cdpatch 1\nset 0 2048 4", Err(Offset(2))), // the second word before the third
    ("cdpatch 1\nset 0 0 4g", Err(Hex(2))),
    ("cdpatch 1\nfill 0 0 4097 FF", Err(Length(2))),
    ("cdpatch 1\nfill 0 0 1 FFFF", Err(Length(2))),
    ("cdpatch 1\nfill 0 0 1 F", Err(Hex(2))),
];

/// Whether patches have these lines, in this order.
fn are_of(patches: &[Patch], lines: &[u32]) -> bool {
    let each = |(patch, line): (&Patch, &u32)| patch.line == *line;
    patches.len() == lines.len() && patches.iter().zip(lines).all(each)
}

/// Whether reading a text gives this result.
fn is_read_so(alloc: Global, (text, due): &Read) -> bool {
    if text.len() > MAX_TEXT {
        return false;
    }
    match (&parse(alloc, text.as_bytes()), due) {
        (Ok(script), Ok(lines)) => are_of(script.patches(), lines),
        (Err(came), Err(due)) => came == due,
        _ => false,
    }
}

#[test]
fn texts(rt: HostRuntime) {
    for (row, read) in TEXTS.iter().enumerate() {
        holds(&rt, is_read_so(rt.alloc(), read), row);
    }
}

/// The line of the first patch above the limit.
const ONE_MORE: u32 = MAX_PATCHES as u32 + 2;

/// The text after the largest number of patches, and the number of all patches, or the error.
const MANY: &[(&str, Result<usize, ScriptFault>)] = &[
    ("", Ok(MAX_PATCHES)),
    ("set 0 0 41\n", Err(TooMany(ONE_MORE))),
    ("set 0 0 4", Err(Hex(ONE_MORE))),
];

#[test]
fn as_many_patches_as_there_may_be(rt: HostRuntime) -> Result<(), AllocError> {
    let patches = "set 0 0 41\n".repeat(rt.alloc(), MAX_PATCHES)?;
    for (row, (rest, due)) in MANY.iter().enumerate() {
        let text = format!(in rt.alloc(); "cdpatch 1\n{patches}{rest}")?;
        assert!(rt; text.len() <= MAX_TEXT);
        let read = parse(rt.alloc(), text.as_bytes());
        holds(&rt, read.map(|script| script.patches().len()) == *due, row);
    }
    Ok(())
}

/// Each error.
const FAULTS: &[ScriptFault] = &[
    Head(7),
    Verb(7),
    Words(7),
    Number(7),
    Hex(7),
    Length(7),
    Offset(7),
    TooMany(7),
    NoMemory,
    Address(7),
];

#[test]
fn texts_of_faults(rt: HostRuntime) -> Result<(), AllocError> {
    for fault in FAULTS {
        let came = format!(in rt.alloc(); "{fault}")?;
        assert_eq!(rt; came.as_str(), fault.text());
    }
    Ok(())
}

/// Each form of a patch, as a line that `write_patch` writes.
const LINES: &[&str] = &[
    "set 0 0 00\n",
    "set 999999999 2047 48EF\n",
    "set 5 16 4869 was C0FF\n",
    "fill 5 16 4096 0A\n",
    "rebuild 16\n",
    "address 0 99:59:74\n",
];

/// Whether a patch is written as this line, and not written to a room that lacks one byte.
fn is_written_so(patch: &Patch<LentBytes<'_>>, line: &[u8]) -> bool {
    let mut room = [0xEE; 64];
    let size = line.len();
    if !is_patch(patch) || size == 0 || size >= room.len() {
        return false;
    }
    let needed = write_patch(patch, &mut room[..size - 1]);
    if needed != size || room != [0xEE; 64] {
        return false;
    }
    let written = write_patch(patch, &mut room);
    written == size && &room[..size] == line && room[size] == 0xEE
}

#[test]
fn lines(rt: HostRuntime) -> Result<(), Fail> {
    for (row, line) in LINES.iter().enumerate() {
        let text = format!(in rt.alloc(); "cdpatch 2\n{line}")?;
        assert!(rt; text.len() <= MAX_TEXT);
        let script = parse(rt.alloc(), text.as_bytes())?;
        let is_right = match script.patches().first() {
            Some(patch) => is_written_so(&lend(patch), line.as_bytes()),
            None => false,
        };
        holds(&rt, is_right, row);
    }
    Ok(())
}
