//! Division by the generator of the EDC, sixteen bytes at a time (ECMA-130, 14). The generator
//! divides x^248 + x^120 + x^24 + 1. So the remainder does not change if a byte is set to 00 and
//! added to the bytes 16, 28, and 31 places after it.

ghost use Rattle.std.specs.Prelude.{◌≡◌, ℕ, ◌+◌, ◌≤◌, List, [], ◌++◌, drop, take};
ghost use Rattle.cd_code.specs.Edc.{bits, remainder};
ghost use Rattle.cd_code.specs.Folding.{IsFolded, with_folded};

use std::simd::prelude::*;

/// The places of the sixteen bytes from the fifth on, in two registers of sixteen bytes.
const FROM_FIFTH: [usize; 16] = [4, 5, 6, 7, 8, 9, 10, 11, 12, 13, 14, 15, 16, 17, 18, 19];

/// The places of the sixteen bytes from the second on, in two registers of sixteen bytes.
const FROM_SECOND: [usize; 16] = [1, 2, 3, 4, 5, 6, 7, 8, 9, 10, 11, 12, 13, 14, 15, 16];

/// The last 32 bytes of a list, to which all bytes before them have been added. A byte is added to
/// later bytes only when these are read, so the older sixteen are not yet added to the newer
/// sixteen.
#[derive(Clone, Copy)]
pub(crate) struct Folded {
    older: u8x16,
    newer: u8x16,
}

impl Folded {
    /// The empty list, as 32 bytes `00`.
    #[inline(always)]
    pub(crate) fn zero() -> Self
        ensures { IsFolded [] result.older result.newer }
    {
        Folded {
            older: u8x16::splat(0),
            newer: u8x16::splat(0),
        }
    }

    /// The list followed by 64 more bytes.
    #[inline(always)]
    pub(crate) fn with_block(self, block: &[u8; 64]) -> Self
        ensures { (v : List ℕ) → IsFolded v self.older self.newer
            → IsFolded (v ++ block.now) result.older result.newer }
    {
        let first = fold_step(self.older, self.newer, load16(block, 0));
        let second = fold_step(self.newer, first, load16(block, 16));
        let third = fold_step(first, second, load16(block, 32));
        let fourth = fold_step(second, third, load16(block, 48));
        Folded {
            older: third,
            newer: fourth,
        }
    }

    /// The 32 bytes after all additions: they have the same remainder as the list.
    pub(crate) fn halves(self) -> ([u8; 16], [u8; 16])
        ensures { (v : List ℕ) → IsFolded v self.older self.newer
            → remainder (bits v) ≡ remainder (bits (result.0 ++ result.1)) }
    {
        let newer = fold_step(u8x16::splat(0), self.older, self.newer);
        (self.older.to_array(), newer.to_array())
    }
}

/// Sixteen bytes of a block, from place `at` on.
#[inline(always)]
fn load16(block: &[u8; 64], at: usize) -> u8x16
    requires { at + 16 ≤ 64 }
    ensures { result ≡ take 16 (drop at block.now) }
{
    u8x16::from_slice(&block[at..])
}

/// Sixteen bytes of a list, to which the 32 bytes before them are added.
#[inline(always)]
fn fold_step(older: u8x16, newer: u8x16, bytes: u8x16) -> u8x16
    ensures { result ≡ with_folded older newer bytes }
{
    bytes ^ newer ^ older.shuffle(newer, FROM_FIFTH) ^ older.shuffle(newer, FROM_SECOND)
}
