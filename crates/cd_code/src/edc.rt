//! The error detection code (ECMA-130, 14).

ghost use Rattle.std.specs.Prelude.{◌≡◌, ℕ, ◌<◌, List, [], ◌∷◌, ◌++◌, replicate};
ghost use Rattle.cd_code.specs.Edc.{IsEdc};

use crate::edc_tables::WORDS;
use crate::folding::Folded;

/// Computes the 32-bit EDC word of a list of bytes of any length. The list, followed by the four
/// bytes of the word with the least significant first, is divisible by the generator
/// (ECMA-130, 14).
///
/// # Examples
///
/// ```
/// assert_eq!(rt; edc_of(&[0x00; 2064]), 0);
/// assert_eq!(rt; edc_of(&[0x01]), 0x9091_0101);
/// ```
#[inline(always)]
pub fn edc_of(bytes: &[u8]) -> u32
    ensures word { IsEdc bytes.now result }
    ensures unique { (w : ℕ) → IsEdc bytes.now w → w ≡ result }
{
    // Inlined, since the number of blocks is constant if the caller's length is constant. Sixteen
    // bytes at a time are added to the bytes 16, 28, and 31 places after them, since a multiple of
    // the generator has only these four terms. The tables process the remaining bytes.
    let (blocks, rest) = bytes.as_chunks::<64>();
    let mut folded = Folded::zero();
    for block in blocks {
        folded = folded.with_block(block);
    }
    let (older, newer) = folded.halves();
    with_bytes(with_bytes(with_bytes(0, &older), &newer), rest)
}

/// The EDC word of a list followed by `bytes`, from the EDC word of the list.
fn with_bytes(word: u32, bytes: &[u8]) -> u32
    ensures { (v : List ℕ) → IsEdc v word → IsEdc (v ++ bytes.now) result }
{
    let (eights, rest) = bytes.as_chunks::<8>();
    let mut word = word;
    for eight in eights {
        word = with_eight(word, eight);
    }
    for byte in rest {
        word = with_byte(word, *byte);
    }
    word
}

/// The EDC word of a list followed by one byte, from the EDC word of the list.
fn with_byte(word: u32, byte: u8) -> u32
    ensures { (v : List ℕ) → IsEdc v word → IsEdc (v ++ byte ∷ []) result }
{
    let [low, _, _, _] = word.to_le_bytes();
    (word >> 8) ^ word_of(low ^ byte, 0)
}

/// The EDC word of a list followed by eight bytes, from the EDC word of the list. The word is added
/// to the first four bytes; then the words of the eight bytes, each followed by zeros, are added
/// up.
fn with_eight(word: u32, bytes: &[u8; 8]) -> u32
    ensures { (v : List ℕ) → IsEdc v word → IsEdc (v ++ bytes.now) result }
{
    let [first, second, third, fourth, fifth, sixth, seventh, eighth] = *bytes;
    let front = u32::from_le_bytes([first, second, third, fourth]);
    let [first, second, third, fourth] = (word ^ front).to_le_bytes();
    word_of(first, 7)
        ^ (word_of(second, 6)
            ^ (word_of(third, 5)
                ^ (word_of(fourth, 4)
                    ^ (word_of(fifth, 3)
                        ^ (word_of(sixth, 2) ^ (word_of(seventh, 1) ^ word_of(eighth, 0)))))))
}

/// Proof step: an entry of the table: the EDC word of a byte followed by `zeros` bytes of 00. This
/// clause is the rule of the table.
fn word_of(byte: u8, zeros: usize) -> u32
    requires { zeros < 8 }
    ensures { IsEdc (byte ∷ replicate zeros 0) result }
{
    WORDS[zeros][byte as usize]
}
