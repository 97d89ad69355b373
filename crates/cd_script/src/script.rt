//! Reads the text of a script into a list of patches in memory.

ghost use Rattle.std.specs.Prelude.{◌≡◌, ◌≢◌, ◌+◌, ◌≤◌, ◌++◌, List, length, map, true, vec_len, All, IsOk, IfOk, IfErr, OnOk};
ghost use Rattle.std.specs.Fn.{Called};
ghost use Rattle.std.specs.List.Sorted.{IsNonDecreasingBy};
ghost use Rattle.std.specs.Option.{option_to_list};
ghost use Rattle.std.specs.Result.{result_err};
ghost use Rattle.bstr.specs.Text.{lines_of, without_terminator};
ghost use Rattle.cd_script.specs.declared.fault.ScriptFault.{ScriptFault};
ghost use Rattle.cd_script.specs.declared.fault.ScriptFault.TheVariants.{NoMemory};
ghost use Rattle.cd_script.specs.PatchForm.{Patch as ThePatch};
ghost use Rattle.cd_script.specs.Limits.{patch_limit, text_limit};
ghost use Rattle.cd_script.specs.Order.{order};
ghost use Rattle.cd_script.specs.Patch.{IsPatch};
ghost use Rattle.cd_script.specs.ByLine.{head_at};
ghost use Rattle.cd_script.specs.Words.{words};
ghost use Rattle.cd_script.specs.Script.{at_limit, head_version, is_passed_over, line_at, named_version, patches_from, script, script_from};

use crate::fault::ScriptFault;
use crate::hex_patch::{HexPatch, build_patch};
use crate::limits::MAX_PATCHES;
use crate::line::patch_of;
use crate::patch::Patch;
use crate::version::Version;
use crate::words::words;
use bstr::{ByteSlice, Lines};
use std::alloc::{AllocError, Global};
use std::marker::Model;

/// The patches of a script, sorted by first block. Those with the same first block are in the order
/// of the script.
#[derive(Debug, Drop)]
pub struct Script {
    patches: Vec<Patch>,
}

impl Model for Script {
    ghost use Rattle.std.specs.Prelude.{List};
    ghost use Rattle.cd_script.specs.PatchForm.{Patch as ThePatch};

    ghost Value = { List ThePatch };

    ghost use Rattle.cd_script.specs.Patch.{IsPatchList};

    ghost view = { λ s. s.patches.items };

    ghost invariant = { λ s. IsPatchList s.patches.items };
}

impl Script {
    /// The patches, sorted by first block. Those with the same first block are in the order of the
    /// script.
    ///
    /// # Examples
    ///
    /// ```
    /// let script = parse(rt.alloc(), b"cdpatch 1\nrebuild 7\n")?;
    /// assert_eq!(rt; script.patches().first().map(|patch| patch.line), Some(2));
    /// ```
    pub fn patches(&self) -> &[Patch]
        ensures patches { result.now ≡ self.now }
        ensures each { All IsPatch result.now }
        ensures count { length result.now ≤ patch_limit }
        ensures rising { IsNonDecreasingBy (λ p. p.block) result.now }
    {
        self.patches.as_slice()
    }
}

/// Whether a line of these words is blank or a comment.
#[tactic(auto, using(crate::proofs::FormLemmas::forms))]
fn is_passed_over(words: &[&[u8]]) -> bool
    ensures { result ≡ is_passed_over (map (λ w. w.now) words.now) }
{
    match words {
        [] => true,
        [first, ..] => match *first {
            [b'#', ..] => true,
            _ => false,
        },
    }
}

/// Whether the first byte of a line shows that it is skipped: the line is empty, or a comment
/// without a space before it.
fn says_nothing(line: &[u8]) -> bool
    ensures { result ≡ true → is_passed_over (words line.now) ≡ true }
{
    match line {
        [] | [b'#', ..] => true,
        _ => false,
    }
}

/// The version that the second word of a head line names; `None` if it names none.
#[tactic(auto, using(crate::proofs::FormLemmas::forms))]
fn named_version(word: &[u8]) -> Option<Version>
    ensures { result ≡ named_version word.now }
{
    match word {
        b"1" => Some(Version::One),
        b"2" => Some(Version::Two),
        _ => None,
    }
}

/// The version of a line of these words; `None` if it is not a head line.
#[tactic(auto, using(crate::proofs::FormLemmas::forms))]
fn head_version(words: &[&[u8]]) -> Option<Version>
    ensures { result ≡ head_version (map (λ w. w.now) words.now) }
{
    match words {
        [name, version] if *name == b"cdpatch".as_slice() => named_version(version),
        _ => None,
    }
}

/// The head line: its number and its version.
#[derive(Clone, Copy, Drop)]
struct Head {
    line: u32,
    version: Version,
}

/// Reads a line that no head line precedes: its version, or `None` if it is blank or a comment.
#[tactic(auto, unfolding(crate::specs::ByLine::head_at))]
pub(crate) fn head_on_line(line: u32, text: &[u8]) -> Result<Option<Version>, ScriptFault>
    ensures { result ≡ head_at line text.now }
{
    if says_nothing(text) {
        return Ok(None);
    }
    let words = words(text);
    let words = words.as_slice();
    if is_passed_over(words) {
        return Ok(None);
    }
    match head_version(words) {
        Some(version) => Ok(Some(version)),
        None => Err(ScriptFault::Head(line)),
    }
}

/// Reads the lines up to and including the head line.
fn head_of(lines: &mut Lines) -> Result<Head, ScriptFault>
    requires { length lines.old ≤ text_limit }
    ensures ok { IfOk result (λ head.
        script_from 1 lines.old ≡ patches_from head.version (head.line + 1) 0 lines.new) }
    ensures room { IfOk result (λ head. head.line + length lines.new ≤ text_limit) }
    ensures err { IfErr result (λ e. script_from 1 lines.old ≡ Err e) }
{
    let mut line = 1;
    while let Some(text) = lines.next() {
        if let Some(version) = head_on_line(line, text)? {
            return Ok(Head { line, version });
        }
        line += 1;
    }
    Err(ScriptFault::Head(line))
}

/// Returns a well-formed patch after `earlier` others, or the error that there are too many.
fn within_limit<'a>(
    line: u32,
    earlier: usize,
    patch: HexPatch<'a>,
) -> Result<Option<HexPatch<'a>>, ScriptFault>
    ensures { result ≡ at_limit line earlier patch.entry }
{
    if earlier >= MAX_PATCHES {
        Err(ScriptFault::TooMany(line))
    } else {
        Ok(Some(patch))
    }
}

/// Reads a line after `earlier` patches: its patch, or `None` if it is blank or a comment.
#[tactic(auto, unfolding(crate::specs::Script::line_at))]
pub(crate) fn patch_on_line<'a>(
    version: Version,
    line: u32,
    earlier: usize,
    text: &'a [u8],
) -> Result<Option<HexPatch<'a>>, ScriptFault>
    ensures { result ≡ line_at version line earlier text.now }
{
    if says_nothing(text) {
        return Ok(None);
    }
    let words = words(text);
    let words = words.as_slice();
    if is_passed_over(words) {
        return Ok(None);
    }
    let patch = patch_of(version, line, words)?;
    within_limit(line, earlier, patch)
}

/// Finds the first error in the lines after the head line. It allocates no memory.
fn check_lines(head: Head, mut lines: Lines<'_>) -> Result<(), ScriptFault>
    requires { head.line + length lines ≤ text_limit }
    ensures { result_err result
        ≡ result_err (patches_from head.version (head.line + 1) 0 lines.entry) }
{
    let mut line = head.line;
    let mut count = 0;
    while let Some(text) = lines.next() {
        line += 1;
        let found = patch_on_line(head.version, line, count, text)?;
        count += usize::from(found.is_some());
    }
    Ok(())
}

/// Appends the patch of a line, if the line has one, to the patches.
fn push_patch(
    alloc: Global,
    patches: &mut Vec<Patch>,
    found: Option<HexPatch<'_>>,
) -> Result<(), AllocError>
    ensures ok { OnOk result (patches.new.items
        ≡ patches.old.items ++ option_to_list found.entry) }
    ensures count { OnOk result (vec_len patches.new
        ≡ vec_len patches.old + length (option_to_list found.entry)) }
{
    if let Some(spelled) = found {
        let patch = build_patch(alloc, spelled)?;
        patches.push(patch)?;
    }
    Ok(())
}

/// Reads the patches of the lines after the head line, which must have no error.
fn patches_of(alloc: Global, head: Head, mut lines: Lines<'_>) -> Result<Vec<Patch>, AllocError>
    requires room { head.line + length lines ≤ text_limit }
    requires sound { IsOk (patches_from head.version (head.line + 1) 0 lines) }
    ensures { IfOk result (λ ps.
        patches_from head.version (head.line + 1) 0 lines.entry ≡ Ok ps.items) }
{
    let mut patches = Vec::new(alloc);
    let mut line = head.line;
    while let Some(text) = lines.next() {
        line += 1;
        let found = patch_on_line(head.version, line, patches.len(), text).unwrap();
        push_patch(alloc, &mut patches, found)?;
    }
    Ok(patches)
}

/// Reads the patches of the lines after the head line, `rest`, or returns the first error. The
/// lines are read twice, first without allocating memory, so that a faulty text is refused for its
/// error and not for lack of memory.
fn read_patches(alloc: Global, head: Head, rest: &[u8]) -> Result<Vec<Patch>, ScriptFault>
    requires { head.line + length (lines_of rest.now) ≤ text_limit }
    ensures ok { IfOk result (λ ps.
        patches_from head.version (head.line + 1) 0
        (map without_terminator (lines_of rest.now)) ≡ Ok ps.items) }
    ensures err { IfErr result (λ e. e ≢ NoMemory
        → patches_from head.version (head.line + 1) 0
        (map without_terminator (lines_of rest.now)) ≡ Err e) }
    ensures refused { (e : ScriptFault)
        → patches_from head.version (head.line + 1) 0
        (map without_terminator (lines_of rest.now)) ≡ Err e
        → result ≡ Err e }
{
    check_lines(head, rest.lines())?;
    let patches = patches_of(alloc, head, rest.lines())?;
    Ok(patches)
}

/// Proof step: sorts patches by the block that `key` returns; patches of one block keep their
/// order. A call that passes a different key is refused, and `put_in_order` is proved from
/// contracts.
fn sort_by<F: FnMut(&Patch) -> u32>(patches: &mut Vec<Patch>, key: F) -> Result<(), AllocError>
    requires callable { F.IsAlwaysCallable key }
    requires block { (before : F) (patch : _) (answer : _) (after : F) →
        Called F.FnMut before patch answer after → answer ≡ patch.0.now.block }
    ensures { OnOk result (patches.new.items ≡ order patches.old.items) }
{
    patches.sort_by_key(key)
}

/// Sorts patches into the order in which they are applied.
fn put_in_order(patches: &mut Vec<Patch>) -> Result<(), AllocError>
    ensures { OnOk result (patches.new.items ≡ order patches.old.items) }
{
    sort_by(patches, |patch| patch.block)
}

/// Reads the text of a script, at most [`MAX_TEXT`](crate::MAX_TEXT) bytes, and sorts its patches
/// by first block.
///
/// # Errors
///
/// The error of the first faulty line, which is found before any memory is allocated; or
/// [`ScriptFault::NoMemory`], if the text has no error and memory cannot be allocated.
///
/// # Examples
///
/// ```
/// let fault = parse(rt.alloc(), b"cdpatch 1\n\nset 16 2048 41\n").err();
/// assert_eq!(rt; fault, Some(ScriptFault::Offset(3))); // in line 3
/// ```
pub fn parse(alloc: Global, text: &[u8]) -> Result<Script, ScriptFault>
    requires { length text.now ≤ text_limit }
    ensures ok { IfOk result (λ s. (ps : List ThePatch) × (script text.now ≡ Ok ps) × (s ≡ order ps)) }
    ensures err { IfErr result (λ e. e ≢ NoMemory → script text.now ≡ Err e) }
    // A text that is not a script is refused for its error, however little memory there is.
    ensures refused { (e : ScriptFault) → script text.now ≡ Err e → result ≡ Err e }
{
    let mut lines = text.lines();
    let head = head_of(&mut lines)?;
    let mut patches = read_patches(alloc, head, lines.as_bytes())?;
    put_in_order(&mut patches)?;
    Ok(Script { patches })
}
