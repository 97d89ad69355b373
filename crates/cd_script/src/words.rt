//! Splits a line of a script into words.

ghost use Rattle.std.specs.Prelude.{◌≡◌, ℕ, ◌<◌, ◌≤◌, ◌↔◌, ◌∷◌, ◌++◌, [], IsTrue, filter, length, map, slice_index, take, true};
ghost use Rattle.memchr.specs.Find.{IsFirstByte};
ghost use Rattle.cd_script.specs.Words.{is_space, is_word, words};

use arrayvec::ArrayVec;
use memchr::memchr2;
use std::marker::Model;

/// One more than the number of words of the longest form, so that a line with too many is noticed.
const MOST_WORDS: usize = 7;

/// The first words of a line, at most `MOST_WORDS`, in their order. Contracts see the list of them.
#[derive(Drop)]
pub(crate) struct FirstWords<'a> {
    parts: ArrayVec<&'a [u8], MOST_WORDS>,
}

impl<'a> Model for FirstWords<'a> {
    ghost use Rattle.std.specs.Prelude.{List, map, ℕ};

    ghost Value = { List (List ℕ) };

    ghost view = { λ words. map (λ w. w.now) words.parts.items };
}

impl<'a> FirstWords<'a> {
    /// An empty list of words.
    fn new() -> Self
        ensures { result ≡ [] }
    {
        FirstWords {
            parts: ArrayVec::new(),
        }
    }

    /// Whether the list has `MOST_WORDS` words.
    fn is_full(&self) -> bool
        ensures { IsTrue result ↔ MOST_WORDS ≤ length self.now }
    {
        self.parts.is_full()
    }

    /// Appends a part of a line, unless it is empty.
    fn push(&mut self, part: &'a [u8])
        requires { length self.old < MOST_WORDS }
        ensures { self.new ≡ self.old ++ filter is_word (part.now ∷ []) }
    {
        if !part.is_empty() {
            self.parts.push(part);
        }
    }

    /// The words as a slice.
    pub(crate) fn as_slice(&self) -> &[&'a [u8]]
        ensures { map (λ w. w.now) result.now ≡ self.now }
    {
        self.parts.as_slice()
    }
}

/// The place of the first space or tab.
fn find_space(line: &[u8]) -> Option<usize>
    ensures { IsFirstByte is_space line.now result }
{
    memchr2(b' ', b'\t', line)
}

/// Whether all of these bytes are spaces or tabs. All are tested, without an early return, which
/// needs only a few instructions.
fn are_spaces(bytes: &[u8; 16]) -> bool
    ensures { result ≡ true → (k : ℕ) → k < 16 → is_space (slice_index bytes.now k) ≡ true }
{
    let mut spaces = true;
    for byte in bytes {
        spaces = spaces & ((*byte == b' ') | (*byte == b'\t'));
    }
    spaces
}

/// Skips spaces and tabs at the front of a line, sixteen at a time, as long as there are sixteen.
fn without_spaces(line: &[u8]) -> &[u8]
    ensures words { words result.now ≡ words line.now }
    ensures most { length result.now ≤ length line.now }
{
    let mut rest = line;
    while let Some((front, after)) = rest.split_first_chunk::<16>() {
        if are_spaces(front) {
            rest = after;
        } else {
            return rest;
        }
    }
    rest
}

/// The first words of a line, at most seven; no form has that many. `memchr` finds the ends of
/// words a register of bytes at a time. std's `split` tests each byte, which nearly doubles the time
/// for a script of long lines.
pub(crate) fn words<'a>(line: &'a [u8]) -> FirstWords<'a>
    ensures { result ≡ take MOST_WORDS (words line.now) }
{
    let mut words = FirstWords::new();
    let mut rest = without_spaces(line);
    while let Some(end) = find_space(rest) {
        let (part, after) = rest.split_at(end);
        words.push(part);
        if words.is_full() {
            return words;
        }
        rest = without_spaces(&after[1..]);
    }
    words.push(rest);
    words
}
