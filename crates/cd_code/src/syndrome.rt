//! Syndromes and parity pairs of one code word (ECMA-130, Annex A).

ghost use Rattle.std.specs.Prelude.{◌≡◌, ◌≢◌, ◌+◌, ◌<◌, ◌≤◌, [], ◌∷◌, ◌++◌};
ghost use Rattle.cd_code.specs.Syndrome.{Balances, IsCodeWord, IsPair, first_syndrome, second_syndrome};

use crate::field::{INVERSE_OF_THREE, doubled, exponent, logarithm, pair_logarithm, times};

/// Computes the two syndromes of a list: the sum of its bytes, and the sum of its bytes times
/// falling powers of alpha, down to 1 at the last byte (ECMA-130, Annex A).
///
/// # Examples
///
/// ```
/// assert_eq!(rt; syndromes(&[0x80, 0x01]), (0x81, 0x1C)); // 80 + 01, and 2 * 80 + 01
/// ```
pub fn syndromes(v: &[u8]) -> (u8, u8)
    ensures first { result.0 ≡ first_syndrome v.now }
    ensures second { result.1 ≡ second_syndrome v.now }
{
    let mut plain = 0;
    let mut weighted = 0;
    for byte in v {
        plain ^= *byte;
        weighted = doubled(weighted) ^ *byte;
    }
    (plain, weighted)
}

/// Computes the two parity bytes of a list from its two syndromes, as [`syndromes`] returns them.
/// The list followed by its parity bytes is a code word (ECMA-130, Annex A).
///
/// # Examples
///
/// ```
/// let (plain, weighted) = syndromes(&[0x01]);
/// assert_eq!(rt; pair_from(plain, weighted), (0x03, 0x02)); // as `parity_pair` of 01
/// ```
pub fn pair_from(plain: u8, weighted: u8) -> (u8, u8)
    ensures { IsPair plain weighted result.0 result.1 }
{
    let first = times(INVERSE_OF_THREE, plain ^ doubled(doubled(weighted)));
    (first, plain ^ first)
}

/// Computes the two parity bytes of `v`: `v` followed by them is a code word (ECMA-130, Annex A).
///
/// # Examples
///
/// ```
/// assert_eq!(rt; parity_pair(&[0x01]), (0x03, 0x02));
/// assert_eq!(rt; syndromes(&[0x01, 0x03, 0x02]), (0x00, 0x00)); // a code word
/// ```
pub fn parity_pair(v: &[u8]) -> (u8, u8)
    ensures { IsCodeWord (v.now ++ result.0 ∷ result.1 ∷ []) }
{
    let (plain, weighted) = syndromes(v);
    pair_from(plain, weighted)
}

/// Computes the change of the two parity bytes for a change of one byte before them. Both syndromes
/// of a list of `len` bytes, the last two of them parity, stay the same if `d` is added to the byte
/// at `place` and the result to the parity. Neither byte of the result is `00` unless `d` is
/// (ECMA-130, Annex A).
///
/// # Examples
///
/// ```
/// assert_eq!(rt; pair_change(3, 0, 0x01), (0x03, 0x02)); // 00 00 00 becomes 01 03 02
/// ```
pub fn pair_change(len: usize, place: usize, d: u8) -> (u8, u8)
    requires in_front { place + 2 < len }
    requires short { len ≤ 255 }
    ensures balances { Balances len place d result.0 result.1 }
    ensures nonzero { d ≢ 0 → (result.0 ≢ 0) × (result.1 ≢ 0) }
{
    let first = exponent(pair_logarithm(len - 1 - place) + logarithm(d));
    (first, first ^ d)
}
