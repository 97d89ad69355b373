//! Converts the number of a block to the address in its header (ECMA-130, 14).

ghost use Rattle.std.specs.Prelude.{◌≡◌, ◌+◌, ◌*◌, ◌/◌, ◌%◌, ◌<◌, ◌≤◌, ◌↔◌, IsSome};
ghost use Rattle.cd_address.specs.Address.{address, bcd};

/// The last block that has an address, which is 99:59:74.
pub const MAX_BLOCK: u32 = 449_849;

/// The number of fractions in a second, each of which is a block.
const FRACTIONS: u32 = 75;

/// The number of seconds in a minute.
const SECONDS: u32 = 60;

/// The fraction at which block 0 stands, which is second 2.
const FIRST_BLOCK: u32 = 2 * FRACTIONS;

/// Minute, second and fraction, each in BCD, of a block that is counted from 0. Block 0 stands at
/// two seconds; a block past minute 99 has none (ECMA-130, 14).
///
/// # Examples
///
/// ```
/// assert_eq!(rt; address_of(0), Some([0x00, 0x02, 0x00])); // 00:02:00
/// assert_eq!(rt; address_of(449_849), Some([0x99, 0x59, 0x74])); // 99:59:74
/// assert_eq!(rt; address_of(449_850), None);
/// ```
#[tactic(auto, unfolding(crate::specs::Address::address))]
pub fn address_of(block: u32) -> Option<[u8; 3]>
    ensures value { result ≡ address block }
    ensures some { block ≤ MAX_BLOCK ↔ IsSome result }
{
    if block > MAX_BLOCK {
        return None;
    }
    let fractions = block + FIRST_BLOCK;
    Some([
        bcd_of(fractions / (SECONDS * FRACTIONS)),
        bcd_of(fractions / FRACTIONS % SECONDS),
        bcd_of(fractions % FRACTIONS),
    ])
}

/// Converts a number below 100 to BCD: the tens in the high four bits, the units in the low four.
fn bcd_of(n: u32) -> u8
    requires { n < 100 }
    ensures { result ≡ bcd n }
{
    (16 * (n / 10) + n % 10) as u8
}
