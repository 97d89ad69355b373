//! Computes the syndromes of the Q diagonals of a sector, sixteen neighbours of both planes at a
//! time (ECMA-130, Annex A). Step t processes byte t - n of diagonal n. This byte is in row t mod
//! 26 and in column t - n, so the bytes of neighbours are adjacent in the sector, the highest
//! diagonal first.

ghost use Rattle.std.specs.Prelude.{◌≡◌, ℕ, ◌+◌, ◌-◌, ◌*◌, ◌/◌, ◌%◌, ◌<◌, ◌≤◌, ◌⊎◌, length, slice_index};
ghost use Rattle.cd_code.specs.CodeWords.{SumsOf, bytes_at, diagonal_input, diagonal_of};
ghost use Rattle.cd_lanes.specs.DiagonalSteps.{SumsUpTo, lane_place};

use cd_code::{
    COLUMNS, DIAGONALS, DiagonalSums, HEADER, LaneSums, PLANE_COLUMNS, Q_PARITY, ROWS, SECTOR_SIZE,
    lanes_at, put_lanes,
};
use std::simd::prelude::*;

/// The number of the highest of sixteen neighbours, less the number of the lowest.
const BELOW_TOP: usize = 15;

/// The number of the first word of the high sixteen diagonals: diagonal 10 of plane 0.
pub(crate) const HIGH_WORDS: usize = 20;

/// `FF` for the 86 bytes of a row, and `00` on both sides: the mask of step k is the 32 bytes from
/// place 2 * k on.
#[rattlefmt::skip]
static LANE_MASKS: [u8; 146] = [
    0, 0, 0, 0, 0, 0, 0, 0, 0, 0, 0, 0, 0, 0, 0, 0, 0, 0, 0, 0, 0, 0, 0, 0, 0, 0, 0, 0, 0, 0, 255, 255,
    255, 255, 255, 255, 255, 255, 255, 255, 255, 255, 255, 255, 255, 255, 255, 255, 255, 255, 255, 255, 255, 255, 255, 255, 255, 255, 255, 255, 255, 255, 255, 255,
    255, 255, 255, 255, 255, 255, 255, 255, 255, 255, 255, 255, 255, 255, 255, 255, 255, 255, 255, 255, 255, 255, 255, 255, 255, 255, 255, 255, 255, 255, 255, 255,
    255, 255, 255, 255, 255, 255, 255, 255, 255, 255, 255, 255, 255, 255, 255, 255, 255, 255, 255, 255, 0, 0, 0, 0, 0, 0, 0, 0, 0, 0, 0, 0,
    0, 0, 0, 0, 0, 0, 0, 0, 0, 0, 0, 0, 0, 0, 0, 0, 0, 0,
];

/// The source of each lane when the order of sixteen pairs of lanes is reversed.
const RISING: [usize; 32] = [
    30, 31, 28, 29, 26, 27, 24, 25, 22, 23, 20, 21, 18, 19, 16, 17, 14, 15, 12, 13, 10, 11, 8, 9,
    6, 7, 4, 5, 2, 3, 0, 1,
];

/// The sums of sixteen diagonals of both planes, over their bytes in the steps below `step`. `top`
/// is the highest diagonal. Lane i is diagonal top - i / 2 of plane i % 2.
#[derive(Clone, Copy)]
struct Diagonals {
    top: usize,
    step: usize,
    sums: LaneSums,
    ghost least: { 15 ≤ top },
    ghost most: { top ≤ 25 },
    ghost begun: { 1 ≤ step },
    ghost near: { top ≤ step + 15 },
}

impl Diagonals {
    /// The sums of diagonals 25 to 10 before step 10, in which the first of them begins.
    fn high(bytes: &[u8; SECTOR_SIZE]) -> Self
        ensures top { result.top ≡ 25 }
        ensures step { result.step ≡ 10 }
        ensures taken { SumsUpTo bytes.now 25 10 result.sums.plain result.sums.weighted }
    {
        Diagonals {
            top: 25,
            step: 10,
            sums: LaneSums::zero(),
        }
    }

    /// The sums of diagonals 15 to 0 after step 0, which adds the first byte of each plane to
    /// diagonal 0.
    fn low(bytes: &[u8; SECTOR_SIZE]) -> Self
        ensures top { result.top ≡ 15 }
        ensures step { result.step ≡ 1 }
        ensures taken { SumsUpTo bytes.now 15 1 result.sums.plain result.sums.weighted }
    {
        let mut lanes = [0; 32];
        lanes[30] = bytes[HEADER];
        lanes[31] = bytes[HEADER + 1];
        let sums = LaneSums::zero().with_lanes(u8x32::from_array(lanes));
        Diagonals {
            top: 15,
            step: 1,
            sums,
        }
    }

    /// Processes the steps below `end`, within one turn of 26 rows, in which some diagonals have
    /// not begun and none has ended. The sums of diagonals that have not begun are `00`, and a byte
    /// `00` does not change them.
    #[inline(always)]
    fn prologue(self, bytes: &[u8; SECTOR_SIZE], end: usize) -> Self
        requires forward { self.step ≤ end }
        requires turn { end ≤ 26 * (self.step / 26) + 26 }
        requires running { end ≤ self.top + 28 }
        requires taken { SumsUpTo bytes.now self.top self.step self.sums.plain self.sums.weighted }
        ensures top { result.top ≡ self.top }
        ensures step { result.step ≡ end }
        ensures taken { SumsUpTo bytes.now result.top end result.sums.plain result.sums.weighted }
    {
        let turn = self.step / ROWS;
        let mut sums = self.sums;
        for step in self.step..end {
            let lanes = lane_window(bytes, self.top, step, step - ROWS * turn);
            sums = sums.with_lanes(mask_lanes(lanes, lane_mask(step + BELOW_TOP - self.top)));
        }
        Diagonals {
            top: self.top,
            step: end,
            sums,
        }
    }

    /// Processes the steps below `end`, within one turn of 26 rows, in which all diagonals have a
    /// byte.
    #[inline(always)]
    fn steady(self, bytes: &[u8; SECTOR_SIZE], end: usize) -> Self
        requires forward { self.step ≤ end }
        requires turn { end ≤ 26 * (self.step / 26) + 26 }
        requires begun { self.top ≤ self.step }
        requires running { end ≤ self.top + 28 }
        requires taken { SumsUpTo bytes.now self.top self.step self.sums.plain self.sums.weighted }
        ensures top { result.top ≡ self.top }
        ensures step { result.step ≡ end }
        ensures taken { SumsUpTo bytes.now result.top end result.sums.plain result.sums.weighted }
    {
        let turn = self.step / ROWS;
        let mut sums = self.sums;
        for step in self.step..end {
            sums = sums.with_lanes(lane_window(bytes, self.top, step, step - ROWS * turn));
        }
        Diagonals {
            top: self.top,
            step: end,
            sums,
        }
    }

    /// Processes the steps below `end`, within one turn of 26 rows, in which some diagonals have
    /// ended. The mask leaves the sums of these diagonals unchanged.
    #[inline(always)]
    fn epilogue(self, bytes: &[u8; SECTOR_SIZE], end: usize) -> Self
        requires forward { self.step ≤ end }
        requires turn { end ≤ 26 * (self.step / 26) + 26 }
        requires most { end ≤ self.top + 43 }
        requires taken { SumsUpTo bytes.now self.top self.step self.sums.plain self.sums.weighted }
        ensures top { result.top ≡ self.top }
        ensures step { result.step ≡ end }
        ensures taken { SumsUpTo bytes.now result.top end result.sums.plain result.sums.weighted }
    {
        let turn = self.step / ROWS;
        let mut sums = self.sums;
        for step in self.step..end {
            let lanes = lane_window(bytes, self.top, step, step - ROWS * turn);
            sums = sums.with_masked_lanes(lanes, lane_mask(step + BELOW_TOP - self.top));
        }
        Diagonals {
            top: self.top,
            step: end,
            sums,
        }
    }

    /// The sums, the lowest diagonal first.
    fn rising(self) -> LaneSums
        ensures plain { (i : ℕ) → i < 32
            → slice_index result.plain i ≡ slice_index self.sums.plain (2 * (15 - i / 2) + i % 2) }
        ensures weighted { (i : ℕ) → i < 32
            → slice_index result.weighted i
            ≡ slice_index self.sums.weighted (2 * (15 - i / 2) + i % 2) }
    {
        LaneSums {
            plain: reverse_pairs(self.sums.plain),
            weighted: reverse_pairs(self.sums.weighted),
        }
    }
}

/// The bytes of the diagonals from `top` down in a step, all of them in one row.
#[inline(always)]
fn lane_window(bytes: &[u8; SECTOR_SIZE], top: usize, step: usize, row: usize) -> u8x32
    requires row { row ≡ step % 26 }
    requires inside { 2 * top ≤ 12 + 86 * row + 2 * step }
    requires last { step ≤ top + 43 }
    requires most { top ≤ 25 }
    ensures { (i : ℕ) → i < 32
        → slice_index result i ≡ slice_index bytes.now (lane_place top step i) }
{
    lanes_at(bytes, HEADER + COLUMNS * row + 2 * step - 2 * top)
}

/// The mask of step k, counted from the step in which the lowest diagonal begins: `FF` for each of
/// 32 lanes with a byte in this step, and `00` for the others.
#[inline(always)]
fn lane_mask(k: usize) -> u8x32
    requires { k < 58 }
    ensures takes { (i : ℕ) → i < 32 → 15 ≤ k + i / 2 → k + i / 2 < 58
        → slice_index result i ≡ 255 }
    ensures leaves { (i : ℕ) → i < 32 → (k + i / 2 < 15) ⊎ (58 ≤ k + i / 2)
        → slice_index result i ≡ 0 }
{
    lanes_at(&LANE_MASKS, 2 * k)
}

/// Proof step: keeps the lanes whose `mask` is `FF`, and sets those whose `mask` is `00` to `00`.
#[inline(always)]
fn mask_lanes(lanes: u8x32, mask: u8x32) -> u8x32
    ensures takes { (i : ℕ) → i < 32 → slice_index mask i ≡ 255
        → slice_index result i ≡ slice_index lanes i }
    ensures leaves { (i : ℕ) → i < 32 → slice_index mask i ≡ 0 → slice_index result i ≡ 0 }
{
    lanes & mask
}

/// Reverses the order of sixteen pairs of lanes, but not the two lanes of a pair.
fn reverse_pairs(v: u8x32) -> u8x32
    ensures { (i : ℕ) → i < 32 → slice_index result i ≡ slice_index v (2 * (15 - i / 2) + i % 2) }
{
    v.swizzle(RISING)
}

/// The syndromes of the first 43 bytes of diagonals 0 to 15. The sums of diagonals 10 to 15 remain
/// incomplete.
///
/// Here and below, the steps in which few diagonals have a byte are split into two loops. The
/// compiler unrolls such a short loop, with its masks as constants, and omits a register if none of
/// its lanes has a byte.
pub(crate) fn low_input_sums(bytes: &[u8; SECTOR_SIZE]) -> LaneSums
    ensures { SumsOf (λ i. bytes_at bytes.now (diagonal_input (i % 2) (i / 2))) 20
        result.plain result.weighted }
{
    Diagonals::low(bytes)
        .prologue(bytes, 8)
        .prologue(bytes, 15)
        .steady(bytes, ROWS)
        .steady(bytes, PLANE_COLUMNS)
        .epilogue(bytes, 2 * ROWS)
        .rising()
}

/// The syndromes of the first 43 bytes of diagonals 10 to 25.
pub(crate) fn high_input_sums(bytes: &[u8; SECTOR_SIZE]) -> LaneSums
    ensures { SumsOf (λ i. bytes_at bytes.now (diagonal_input ((20 + i) % 2) ((20 + i) / 2))) 32
        result.plain result.weighted }
{
    Diagonals::high(bytes)
        .prologue(bytes, 18)
        .prologue(bytes, 25)
        .steady(bytes, ROWS)
        .steady(bytes, 2 * ROWS)
        .steady(bytes, 53)
        .epilogue(bytes, 61)
        .epilogue(bytes, 68)
        .rising()
}

/// The sums of all 26 diagonals of both planes: 0 to 9 from `low`, 10 to 25 from `high`.
fn join_halves(low: LaneSums, high: LaneSums) -> DiagonalSums
    ensures plain_low { (i : ℕ) → i < 20 → slice_index result.plain i ≡ slice_index low.plain i }
    ensures plain_high { (i : ℕ) → i < 32
        → slice_index result.plain (20 + i) ≡ slice_index high.plain i }
    ensures weighted_low { (i : ℕ) → i < 20
        → slice_index result.weighted i ≡ slice_index low.weighted i }
    ensures weighted_high { (i : ℕ) → i < 32
        → slice_index result.weighted (20 + i) ≡ slice_index high.weighted i }
{
    let mut sums = DiagonalSums {
        plain: [0; DIAGONALS],
        weighted: [0; DIAGONALS],
    };
    put_lanes(&mut sums.plain, 0, low.plain);
    put_lanes(&mut sums.plain, HIGH_WORDS, high.plain);
    put_lanes(&mut sums.weighted, 0, low.weighted);
    put_lanes(&mut sums.weighted, HIGH_WORDS, high.weighted);
    sums
}

/// Computes both syndromes of each diagonal, including its parity (ECMA-130, Annex A).
///
/// # Examples
///
/// ```
/// let mut bytes = [0x00; SECTOR_SIZE];
/// bytes[12] = 0x01; // the first byte of diagonal 0, of 45
/// let sums = all_diagonal_sums(&bytes);
/// assert_eq!(rt; (sums.plain[0], sums.weighted[0]), (0x01, alpha_power(44)));
/// ```
pub fn all_diagonal_sums(bytes: &[u8; SECTOR_SIZE]) -> DiagonalSums
    ensures { SumsOf (diagonal_of bytes.now) 52 result.plain result.weighted }
{
    let low = low_input_sums(bytes)
        .with_lanes(lanes_at(bytes, Q_PARITY))
        .with_lanes(lanes_at(bytes, Q_PARITY + DIAGONALS));
    let high = high_input_sums(bytes)
        .with_lanes(lanes_at(bytes, Q_PARITY + HIGH_WORDS))
        .with_lanes(lanes_at(bytes, Q_PARITY + DIAGONALS + HIGH_WORDS));
    join_halves(low, high)
}
