//! The syndromes of 32 words, side by side in registers (ECMA-130, Annex A).

ghost use Rattle.std.specs.Prelude.{◌≡◌, ℕ, ◌<◌, bit_xor, replicate, slice_index};
ghost use Rattle.cd_code.specs.Field.{double, product};
ghost use Rattle.cd_code.specs.Syndrome.{IsPair};

use crate::lanes::doubled_lanes;
use std::simd::prelude::*;

/// Both syndromes of 32 words, one word in each lane (ECMA-130, Annex A). Public for cd_lanes,
/// which computes the diagonals in the same registers.
#[derive(Clone, Copy, Debug)]
pub struct LaneSums {
    /// The sum of each word's bytes.
    pub plain: u8x32,
    /// The sum of each word's bytes times falling powers of alpha, down to 1 at the last byte.
    pub weighted: u8x32,
}

impl LaneSums {
    /// The sums of 32 empty words: all `00`.
    ///
    /// See the example of [`LaneSums::pairs`].
    #[inline(always)]
    pub fn zero() -> Self
        ensures plain { result.plain ≡ replicate 32 0 }
        ensures weighted { result.weighted ≡ replicate 32 0 }
    {
        LaneSums {
            plain: u8x32::splat(0),
            weighted: u8x32::splat(0),
        }
    }

    /// Appends one byte to each word: adds it to the plain sum, and to the doubled weighted sum
    /// (ECMA-130, Annex A).
    ///
    /// See the example of [`LaneSums::pairs`].
    #[inline(always)]
    pub fn with_lanes(self, lanes: u8x32) -> Self
        ensures plain { (i : ℕ) → i < 32
            → slice_index result.plain i
            ≡ bit_xor (slice_index self.plain i) (slice_index lanes i) }
        ensures weighted { (i : ℕ) → i < 32
            → slice_index result.weighted i
            ≡ bit_xor (double (slice_index self.weighted i)) (slice_index lanes i) }
    {
        LaneSums {
            plain: self.plain ^ lanes,
            weighted: doubled_and_added(self.weighted, lanes),
        }
    }

    /// Appends one byte to each word whose `mask` is `FF`. A word whose `mask` is `00` does not
    /// change (ECMA-130, Annex A).
    ///
    /// # Examples
    ///
    /// ```
    /// let words = LaneSums::zero().with_lanes(u8x32::splat(0x80)); // 32 words 80
    /// let longer = words.with_masked_lanes(u8x32::splat(0x01), u8x32::splat(0xFF)); // 32 words 80 01
    /// assert_eq!(rt; (longer.plain[0], longer.weighted[0]), (0x81, 0x1C)); // 80 + 01, and 2 * 80 + 01
    /// let same = words.with_masked_lanes(u8x32::splat(0x01), u8x32::splat(0x00));
    /// assert_eq!(rt; (same.plain[0], same.weighted[0]), (0x80, 0x80)); // still 80
    /// ```
    #[inline(always)]
    pub fn with_masked_lanes(self, lanes: u8x32, mask: u8x32) -> Self
        ensures plain { (i : ℕ) → i < 32 → slice_index mask i ≡ 255
            → slice_index result.plain i
            ≡ bit_xor (slice_index self.plain i) (slice_index lanes i) }
        ensures weighted { (i : ℕ) → i < 32 → slice_index mask i ≡ 255
            → slice_index result.weighted i
            ≡ bit_xor (double (slice_index self.weighted i)) (slice_index lanes i) }
        ensures plain_stays { (i : ℕ) → i < 32 → slice_index mask i ≡ 0
            → slice_index result.plain i ≡ slice_index self.plain i }
        ensures weighted_stays { (i : ℕ) → i < 32 → slice_index mask i ≡ 0
            → slice_index result.weighted i ≡ slice_index self.weighted i }
    {
        let taken = self.with_lanes(lanes);
        LaneSums {
            plain: select_lanes(self.plain, taken.plain, mask),
            weighted: select_lanes(self.weighted, taken.weighted, mask),
        }
    }

    /// The two parity bytes of each word: the word followed by them is a code word
    /// (ECMA-130, Annex A).
    ///
    /// # Examples
    ///
    /// ```
    /// let words = LaneSums::zero().with_lanes(u8x32::splat(0x01)); // 32 words 01
    /// let (first, second) = words.pairs();
    /// assert_eq!(rt; (first[31], second[31]), (0x03, 0x02)); // 01 03 02 is a code word
    /// ```
    pub fn pairs(self) -> (u8x32, u8x32)
        ensures { (i : ℕ) → i < 32
            → IsPair (slice_index self.plain i) (slice_index self.weighted i)
            (slice_index result.0 i) (slice_index result.1 i) }
    {
        let sum = doubled_and_added(doubled_lanes(self.weighted), self.plain);
        let first = times_inverse_of_three(sum);
        (first, self.plain ^ first)
    }
}

/// Multiplies 32 field elements by alpha, and adds 32 other elements.
#[inline(always)]
fn doubled_and_added(v: u8x32, added: u8x32) -> u8x32
    ensures { (i : ℕ) → i < 32
        → slice_index result i ≡ bit_xor (double (slice_index v i)) (slice_index added i) }
{
    doubled_lanes(v) ^ added
}

/// Multiplies 32 field elements by F4, which is the sum of alpha to the 7, 6, 5, 4, and 2.
fn times_inverse_of_three(v: u8x32) -> u8x32
    ensures { (i : ℕ) → i < 32 → slice_index result i ≡ product 244 (slice_index v i) }
{
    let two = doubled_and_added(v, v);
    let three = doubled_and_added(two, v);
    let four = doubled_and_added(three, v);
    let five = doubled_and_added(doubled_lanes(four), v);
    doubled_lanes(doubled_lanes(five))
}

/// Selects lane by lane: `new` where `mask` is `FF`, and `old` where it is `00`.
#[inline(always)]
fn select_lanes(old: u8x32, new: u8x32, mask: u8x32) -> u8x32
    ensures new { (i : ℕ) → i < 32 → slice_index mask i ≡ 255
        → slice_index result i ≡ slice_index new i }
    ensures old { (i : ℕ) → i < 32 → slice_index mask i ≡ 0
        → slice_index result i ≡ slice_index old i }
{
    old ^ ((old ^ new) & mask)
}
