//! Arithmetic with 32 field elements at a time, one in each lane of a vector.

ghost use Rattle.std.specs.Prelude.{◌≡◌, ℕ, ◌+◌, ◌<◌, ◌≤◌, ◌⊎◌, bit_xor, length, map, slice_index};
ghost use Rattle.cd_code.specs.Field.{double};

use crate::field::doubled;
use std::simd::prelude::*;

/// Reads 32 bytes from place `at` on.
///
/// See the example of [`put_lanes`].
#[inline(always)]
pub fn lanes_at(bytes: &[u8], at: usize) -> u8x32
    requires { at + 32 ≤ length bytes.now }
    ensures { (i : ℕ) → i < 32 → slice_index result i ≡ slice_index bytes.now (at + i) }
{
    u8x32::from_slice(&bytes[at..])
}

/// Writes 32 lanes from place `at` on.
///
/// # Examples
///
/// ```
/// let lanes = lanes_at(&[0x07; 40], 8); // bytes 8 to 39
/// let mut bytes = [0x00; 34];
/// put_lanes(&mut bytes, 1, lanes);
/// assert_eq!(rt; (bytes[0], bytes[1], bytes[33]), (0x00, 0x07, 0x00));
/// ```
#[inline(always)]
pub fn put_lanes(bytes: &mut [u8], at: usize, lanes: u8x32)
    requires { at + 32 ≤ length bytes.old }
    ensures inside { (i : ℕ) → i < 32 → slice_index bytes.new (at + i) ≡ slice_index lanes i }
    ensures outside { (k : ℕ) → (k < at) ⊎ (at + 32 ≤ k)
        → slice_index bytes.new k ≡ slice_index bytes.old k }
{
    lanes.copy_to_slice(&mut bytes[at..]);
}

/// Adds 32 bytes of a row, from place `at` on, to the sums at the same places.
pub(crate) fn add_lanes(sums: &mut [u8], row: &[u8], at: usize)
    requires within_sums { at + 32 ≤ length sums.old }
    requires within_row { at + 32 ≤ length row.now }
    ensures added { (c : ℕ) → at ≤ c → c < at + 32
        → slice_index sums.new c ≡ bit_xor (slice_index sums.old c) (slice_index row.now c) }
    ensures below { (c : ℕ) → c < at → slice_index sums.new c ≡ slice_index sums.old c }
    ensures above { (c : ℕ) → at + 32 ≤ c → slice_index sums.new c ≡ slice_index sums.old c }
{
    let added = u8x32::from_slice(&sums[at..]) ^ u8x32::from_slice(&row[at..]);
    added.copy_to_slice(&mut sums[at..]);
}

/// Doubles 32 sums, from place `at` on, and adds the row's bytes at the same places.
pub(crate) fn double_and_add_lanes(sums: &mut [u8], row: &[u8], at: usize)
    requires within_sums { at + 32 ≤ length sums.old }
    requires within_row { at + 32 ≤ length row.now }
    ensures added { (c : ℕ) → at ≤ c → c < at + 32
        → slice_index sums.new c
        ≡ bit_xor (double (slice_index sums.old c)) (slice_index row.now c) }
    ensures below { (c : ℕ) → c < at → slice_index sums.new c ≡ slice_index sums.old c }
    ensures above { (c : ℕ) → at + 32 ≤ c → slice_index sums.new c ≡ slice_index sums.old c }
{
    let added = doubled_lanes(u8x32::from_slice(&sums[at..])) ^ u8x32::from_slice(&row[at..]);
    added.copy_to_slice(&mut sums[at..]);
}

/// Multiplies 32 field elements by alpha.
#[inline(always)]
pub(crate) fn doubled_lanes(v: u8x32) -> u8x32
    ensures { result ≡ map double v }
{
    let carried = v
        .simd_ge(u8x32::splat(128))
        .select(u8x32::splat(0x1D), u8x32::splat(0));
    (v + v) ^ carried
}

/// Adds a row, from place `at` on, to the plain sums and to the doubled weighted sums.
pub(crate) fn add_rest(plain: &mut [u8], weighted: &mut [u8], row: &[u8], at: usize)
    requires plain_length { length plain.old ≡ length row.now }
    requires weighted_length { length weighted.old ≡ length row.now }
    ensures plain { (c : ℕ) → at ≤ c → c < length row.now
        → slice_index plain.new c ≡ bit_xor (slice_index plain.old c) (slice_index row.now c) }
    ensures plain_below { (c : ℕ) → c < at → slice_index plain.new c ≡ slice_index plain.old c }
    ensures weighted { (c : ℕ) → at ≤ c → c < length row.now
        → slice_index weighted.new c
        ≡ bit_xor (double (slice_index weighted.old c)) (slice_index row.now c) }
    ensures weighted_below { (c : ℕ) → c < at
        → slice_index weighted.new c ≡ slice_index weighted.old c }
{
    for i in at..row.len() {
        plain[i] ^= row[i];
        weighted[i] = doubled(weighted[i]) ^ row[i];
    }
}
