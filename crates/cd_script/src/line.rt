//! Reads the words of a line: the forms of patches.
#![tactic(auto, using(crate::proofs::FormLemmas::forms))]

ghost use Rattle.std.specs.Prelude.{◌≡◌, map};
ghost use Rattle.cd_script.specs.Line.{set_patch, set_if_patch, fill_patch, rebuild_patch, address_patch, set_line, fill_line, rebuild_line, address_line, patch_at, patch_by};

use crate::fault::ScriptFault;
use crate::hex_patch::HexPatch;
use crate::patch::{Edit, Patch};
use crate::value::{address_of, byte_of, count_of, new_of, number_of, offset_of, old_of};
use crate::version::Version;

/// `set BLOCK OFFSET NEW`, from the words after the verb.
#[tactic(auto, unfolding(crate::specs::Line::set_patch))]
fn set_patch<'a>(
    line: u32,
    block: &[u8],
    offset: &[u8],
    new: &'a [u8],
) -> Result<HexPatch<'a>, ScriptFault>
    ensures { result ≡ set_patch line block.now offset.now new.now }
{
    let block = number_of(line, block)?;
    let offset = offset_of(line, offset)?;
    let bytes = new_of(line, new)?;
    let edit = Edit::Put { bytes, was: None };
    Ok(Patch {
        line,
        block,
        offset,
        edit,
    })
}

/// `set BLOCK OFFSET NEW was OLD`, from the words after the verb, without `was`.
#[tactic(auto, unfolding(crate::specs::Line::set_if_patch))]
fn set_if_patch<'a>(
    line: u32,
    block: &[u8],
    offset: &[u8],
    new: &'a [u8],
    old: &'a [u8],
) -> Result<HexPatch<'a>, ScriptFault>
    ensures { result ≡ set_if_patch line block.now offset.now new.now old.now }
{
    let block = number_of(line, block)?;
    let offset = offset_of(line, offset)?;
    let bytes = new_of(line, new)?;
    let was = Some(old_of(line, &bytes, old)?);
    let edit = Edit::Put { bytes, was };
    Ok(Patch {
        line,
        block,
        offset,
        edit,
    })
}

/// `fill BLOCK OFFSET COUNT BYTE`, from the words after the verb.
#[tactic(auto, unfolding(crate::specs::Line::fill_patch))]
fn fill_patch<'a>(
    line: u32,
    block: &[u8],
    offset: &[u8],
    count: &[u8],
    byte: &[u8],
) -> Result<HexPatch<'a>, ScriptFault>
    ensures { result ≡ fill_patch line block.now offset.now count.now byte.now }
{
    let block = number_of(line, block)?;
    let offset = offset_of(line, offset)?;
    let count = count_of(line, count)?;
    let value = byte_of(line, byte)?;
    let edit = Edit::Fill { count, value };
    Ok(Patch {
        line,
        block,
        offset,
        edit,
    })
}

/// `rebuild BLOCK`, from the word after the verb.
#[tactic(auto, unfolding(crate::specs::Line::rebuild_patch))]
fn rebuild_patch<'a>(line: u32, block: &[u8]) -> Result<HexPatch<'a>, ScriptFault>
    ensures { result ≡ rebuild_patch line block.now }
{
    let block = number_of(line, block)?;
    Ok(Patch {
        line,
        block,
        offset: 0,
        edit: Edit::Rebuild,
    })
}

/// `address BLOCK MM:SS:FF`, from the words after the verb.
#[tactic(auto, unfolding(crate::specs::Line::address_patch))]
fn address_patch<'a>(line: u32, block: &[u8], address: &[u8]) -> Result<HexPatch<'a>, ScriptFault>
    ensures { result ≡ address_patch line block.now address.now }
{
    let block = number_of(line, block)?;
    let bcd = address_of(line, address)?;
    Ok(Patch {
        line,
        block,
        offset: 0,
        edit: Edit::Address { bcd },
    })
}

/// `set ..`: selects the form by the number of words after the verb.
fn set_line<'a>(line: u32, words: &[&'a [u8]]) -> Result<HexPatch<'a>, ScriptFault>
    ensures { result ≡ set_line line (map (λ w. w.now) words.now) }
{
    match words {
        [block, offset, new] => set_patch(line, block, offset, new),
        [block, offset, new, was, old] if *was == b"was".as_slice() => {
            set_if_patch(line, block, offset, new, old)
        }
        _ => Err(ScriptFault::Words(line)),
    }
}

/// `fill ..`: four words after the verb.
fn fill_line<'a>(line: u32, words: &[&'a [u8]]) -> Result<HexPatch<'a>, ScriptFault>
    ensures { result ≡ fill_line line (map (λ w. w.now) words.now) }
{
    match words {
        [block, offset, count, byte] => fill_patch(line, block, offset, count, byte),
        _ => Err(ScriptFault::Words(line)),
    }
}

/// `rebuild ..`: one word after the verb.
fn rebuild_line<'a>(line: u32, words: &[&'a [u8]]) -> Result<HexPatch<'a>, ScriptFault>
    ensures { result ≡ rebuild_line line (map (λ w. w.now) words.now) }
{
    match words {
        [block] => rebuild_patch(line, block),
        _ => Err(ScriptFault::Words(line)),
    }
}

/// `address ..`: two words after the verb. Their number is tested first, then the block, then the
/// address, and last whether the script has too many patches.
fn address_line<'a>(line: u32, words: &[&'a [u8]]) -> Result<HexPatch<'a>, ScriptFault>
    ensures { result ≡ address_line line (map (λ w. w.now) words.now) }
{
    match words {
        [block, address] => address_patch(line, block, address),
        _ => Err(ScriptFault::Words(line)),
    }
}

/// The patch that the words of this line spell in version 1.
#[tactic(auto, using(crate::proofs::FormLemmas::forms), unfolding(crate::specs::Line::patch_at))]
fn first_patch_of<'a>(line: u32, words: &[&'a [u8]]) -> Result<HexPatch<'a>, ScriptFault>
    ensures { result ≡ patch_at line (map (λ w. w.now) words.now) }
{
    let Some((verb, rest)) = words.split_first() else {
        return Err(ScriptFault::Verb(line));
    };
    match *verb {
        b"set" => set_line(line, rest),
        b"fill" => fill_line(line, rest),
        b"rebuild" => rebuild_line(line, rest),
        _ => Err(ScriptFault::Verb(line)),
    }
}

/// The patch that the words of this line spell. Version 2 has one more verb. All other lines are
/// read as in version 1, whose definition is unchanged.
#[tactic(auto, using(crate::proofs::FormLemmas::forms), unfolding(crate::specs::Line::patch_by))]
pub(crate) fn patch_of<'a>(
    version: Version,
    line: u32,
    words: &[&'a [u8]],
) -> Result<HexPatch<'a>, ScriptFault>
    ensures { result ≡ patch_by version line (map (λ w. w.now) words.now) }
{
    match version {
        Version::One => first_patch_of(line, words),
        Version::Two => match words {
            [verb, rest @ ..] if *verb == b"address".as_slice() => address_line(line, rest),
            _ => first_patch_of(line, words),
        },
    }
}
