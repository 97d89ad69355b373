//! Reads header addresses of the form `MM:SS:FF` (ECMA-130, 14).

ghost use Rattle.std.specs.Prelude.{◌≡◌};
ghost use Rattle.cd_script.specs.Address.{address_bytes, bcd_below, header_bytes};

use crate::limits::{FRACTIONS, MINUTES, SECONDS};

/// Converts two decimal digits to BCD; `None` if they are not digits, or not below the limit.
#[tactic(auto, unfolding(crate::specs::Address::bcd_below))]
fn bcd_below(limit: u8, high: u8, low: u8) -> Option<u8>
    ensures { result ≡ bcd_below limit high low }
{
    if !high.is_ascii_digit() || !low.is_ascii_digit() {
        return None;
    }
    let (high, low) = (high - b'0', low - b'0');
    if 10 * high + low >= limit {
        return None;
    }
    Some(16 * high + low)
}

/// Converts the digits of a minute, a second, and a fraction to three header bytes; `None` if one
/// of them is invalid.
#[tactic(auto, unfolding(crate::specs::Address::header_bytes))]
fn header_bytes(minute: (u8, u8), second: (u8, u8), fraction: (u8, u8)) -> Option<[u8; 3]>
    ensures { result ≡ header_bytes minute.0 minute.1 second.0 second.1 fraction.0 fraction.1 }
{
    Some([
        bcd_below(MINUTES, minute.0, minute.1)?,
        bcd_below(SECONDS, second.0, second.1)?,
        bcd_below(FRACTIONS, fraction.0, fraction.1)?,
    ])
}

/// Converts an address `MM:SS:FF` to three header bytes; `None` if it is malformed.
#[tactic(auto, unfolding(crate::specs::Address::address_bytes))]
pub(crate) fn address(word: &[u8]) -> Option<[u8; 3]>
    ensures { result ≡ address_bytes word.now }
{
    match word {
        [m, n, b':', s, t, b':', f, g] => header_bytes((*m, *n), (*s, *t), (*f, *g)),
        _ => None,
    }
}
