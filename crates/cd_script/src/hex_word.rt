//! Hex words that are checked but not decoded yet.

ghost use Rattle.std.specs.Prelude.{◌≡◌, ◌≤◌, ◌∷◌, ◌++◌, [], IfOk, drop, length};
ghost use Rattle.std.specs.List.{list_all};
ghost use Rattle.hex.specs.Hex.{is_hex_digit};
ghost use Rattle.cd_script.specs.Hex.{hex_bytes};

use crate::bytes::PatchBytes;
use std::alloc::{AllocError, Global};
use std::marker::Model;

/// An even number of hex digits, in either case. Contracts see the bytes that the digits spell.
#[derive(Drop)]
pub struct HexWord<'a> {
    digits: &'a [u8],
}

impl<'a> Model for HexWord<'a> {
    ghost use Rattle.std.specs.Prelude.{IsSome, List, ℕ};
    ghost use Rattle.cd_script.specs.Hex.{hex_bytes, spelled_bytes};

    ghost Value = { List ℕ };

    ghost view = { λ w. spelled_bytes w.digits.now };

    ghost invariant = { λ w. IsSome (hex_bytes w.digits.now) };
}

/// Whether each byte is a hex digit.
fn are_hex_digits(word: &[u8]) -> bool
    ensures { result ≡ list_all is_hex_digit word.now }
{
    let mut all = true;
    // Without an early return the compiler vectorises the loop.
    for digit in word {
        all &= digit.is_ascii_hexdigit();
    }
    all
}

impl<'a> HexWord<'a> {
    /// Checks a word; `None` if it is not an even number of hex digits.
    pub(crate) fn new(word: &'a [u8]) -> Option<HexWord<'a>>
        ensures { result ≡ hex_bytes word.now }
    {
        if word.len() % 2 != 0 {
            return None;
        }
        if !are_hex_digits(word) {
            return None;
        }
        Some(HexWord { digits: word })
    }

    /// The number of bytes that the word spells.
    ///
    /// See the example of [`HexWord::decode_to`].
    pub fn len(&self) -> usize
        ensures { result ≡ length self.now }
    {
        self.digits.len() / 2
    }

    /// Decodes a word that spells exactly one byte.
    pub(crate) fn only_byte(&self) -> u8
        requires { length self.now ≡ 1 }
        ensures { self.now ≡ result ∷ [] }
    {
        let mut octets = [0; 1];
        hex::decode_to_slice(self.digits, &mut octets).unwrap();
        octets[0]
    }

    /// Decodes the word to the front of `room`, which must be large enough. The rest of `room` does
    /// not change.
    ///
    /// # Examples
    ///
    /// ```
    /// let line = read_line(Some(Version::One), 2, 0, b"set 5 0 4869");
    /// let Ok(LineContent::Patch(patch)) = line else {
    ///     panic!(rt; "not a patch");
    /// };
    /// let Edit::Put { bytes, .. } = &patch.edit else {
    ///     panic!(rt; "a patch of another kind");
    /// };
    /// assert_eq!(rt; bytes.len(), 2);
    /// let mut room = [0xFF; 4];
    /// bytes.decode_to(&mut room);
    /// assert_eq!(rt; room, [0x48, 0x69, 0xFF, 0xFF]);
    /// ```
    pub fn decode_to(&self, room: &mut [u8])
        requires { length self.now ≤ length room.old }
        ensures { room.new ≡ self.now ++ drop (length self.now) room.old }
    {
        let count = self.len();
        hex::decode_to_slice(self.digits, &mut room[..count]).unwrap();
    }

    /// Decodes the word to newly allocated bytes.
    pub(crate) fn decode(&self, alloc: Global) -> Result<PatchBytes, AllocError>
        ensures { IfOk result (λ bytes. bytes ≡ self.now) }
    {
        let mut octets = vec![in alloc; 0; self.len()]?;
        hex::decode_to_slice(self.digits, octets.as_mut_slice()).unwrap();
        Ok(PatchBytes::new(octets))
    }
}
