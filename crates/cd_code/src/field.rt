//! Arithmetic in GF(2^8), modulo x^8 + x^4 + x^3 + x^2 + 1, with alpha = 2 (ECMA-130, Annex A).

ghost use Rattle.std.specs.Prelude.{◌≡◌, ◌<◌, ◌≤◌, bit_xor};
ghost use Rattle.cd_code.specs.Field.{IsExponent, IsLogarithm, double, power, product};

use crate::field_tables::{EXPONENTS, LOGARITHMS, PAIRS};

/// The inverse of 3, which is 1 + alpha.
pub(crate) const INVERSE_OF_THREE: u8 = 0xF4;

/// A field element times alpha.
pub(crate) fn doubled(b: u8) -> u8
    ensures { result ≡ double b }
{
    if b < 128 { b << 1 } else { (b << 1) ^ 0x1D }
}

/// The product of two field elements (ECMA-130, Annex A).
///
/// # Examples
///
/// ```
/// assert_eq!(rt; times(0x80, 0x02), 0x1D); // x^8 is x^4 + x^3 + x^2 + 1
/// assert_eq!(rt; times(0x03, 0xF4), 0x01); // F4 is the inverse of 03
/// ```
pub fn times(a: u8, b: u8) -> u8
    ensures { result ≡ product a b }
{
    exponent(logarithm(a) + logarithm(b))
}

/// The `n`-th power of alpha, which is `02` (ECMA-130, Annex A).
///
/// # Examples
///
/// ```
/// assert_eq!(rt; alpha_power(8), 0x1D);
/// assert_eq!(rt; alpha_power(255), 0x01); // from here on they come again
/// ```
pub fn alpha_power(n: u32) -> u8
    ensures { result ≡ power n }
{
    exponent((n % 255) as usize)
}

/// Proof step: an entry of the table: alpha to the `n`, or 0. This clause is the rule of the table.
pub(crate) fn exponent(n: usize) -> u8
    requires { n ≤ 1020 }
    ensures { IsExponent n result }
{
    EXPONENTS[n]
}

/// Proof step: an entry of the table: the logarithm of an element to the base alpha, or 510 for 0.
/// This clause is the rule of the table.
pub(crate) fn logarithm(a: u8) -> usize
    ensures { IsLogarithm a result }
{
    LOGARITHMS[a as usize] as usize
}

/// Proof step: an entry of the table: the logarithm of the factor by which a byte of a code word is
/// multiplied for its parity, if `weight` bytes follow it. The clauses are the rule of the table.
pub(crate) fn pair_logarithm(weight: usize) -> usize
    requires some { 0 < weight }
    requires below { weight < 255 }
    ensures below { result < 255 }
    ensures power { power result ≡ product 244 (bit_xor (power weight) 1) }
{
    PAIRS[weight] as usize
}
