//! Worked values of the field, of code words, of the EDC, and of the sums of columns.

ghost use Rattle.std.specs.Prelude.{◌<◌};

use super::holds;
use cd_code::{alpha_power, column_sums, edc_of, pair_change, parity_pair, syndromes, times};

/// Two factors, and their product.
const PRODUCTS: &[(u8, u8, u8)] = &[(0x80, 0x02, 0x1D), (0x03, 0xF4, 0x01), (0x02, 0xF4, 0xF5)];

/// An exponent, and this power of alpha, whose order is 255.
const POWERS: &[(u32, u8)] = &[
    (0, 0x01),
    (1, 0x02),
    (7, 0x80),
    (8, 0x1D),
    (12, 0xCD),
    (13, 0x87),
    (24, 0x8F),
    (25, 0x03),
    (44, 0xEE),
    (255, 0x01),
];

#[test]
fn products_and_powers(rt: HostRuntime) {
    for (row, (a, b, product)) in PRODUCTS.iter().enumerate() {
        holds(&rt, times(*a, *b) == *product, row);
    }
    for (row, (n, power)) in POWERS.iter().enumerate() {
        holds(&rt, alpha_power(*n) == *power, row);
    }
}

#[test]
fn a_parity_pair(rt: HostRuntime) {
    assert_eq!(rt; parity_pair(&[0x01]), (0x03, 0x02));
}

/// The size of a code word, a place in it, a change there, and the changes of its last two bytes.
const PAIR_CHANGES: &[(usize, usize, u8, (u8, u8))] = &[
    (3, 0, 0x01, (0x03, 0x02)),
    (26, 23, 0x01, (0x03, 0x02)),
    (45, 36, 0x01, (0xFF, 0xFE)),
    (45, 36, 0x03, (0x1C, 0x1F)),
    (45, 36, 0x02, (0xE3, 0xE1)),
    (45, 42, 0x03, (0x05, 0x06)),
    (26, 0, 0x01, (0xF5, 0xF4)),
    (45, 0, 0x01, (0xAE, 0xAF)),
    (45, 0, 0xF5, (0x3F, 0xCA)),
    (45, 0, 0xF4, (0x91, 0x65)),
];

#[test]
fn changes_of_a_pair(rt: HostRuntime) {
    for (row, (size, place, d, pair)) in PAIR_CHANGES.iter().enumerate() {
        let (size, place, d) = (*size, *place, *d);
        assert!(rt; size <= 255 && place < 253 && place + 2 < size);
        holds(&rt, pair_change(size, place, d) == *pair, row);
    }
}

/// A list of bytes, its EDC word, and the bytes of the word as they are stored.
const EDC_WORDS: &[(&[u8], u32, [u8; 4])] = &[
    (&[], 0x0000_0000, [0x00, 0x00, 0x00, 0x00]),
    (&[0x01], 0x9091_0101, [0x01, 0x01, 0x91, 0x90]),
    (&[0x02], 0x9121_0201, [0x01, 0x02, 0x21, 0x91]),
    (&[0x04], 0x9241_0401, [0x01, 0x04, 0x41, 0x92]),
    (&[0x08], 0x9481_0801, [0x01, 0x08, 0x81, 0x94]),
    (&[0x10], 0x9901_1001, [0x01, 0x10, 0x01, 0x99]),
    (&[0x20], 0x8201_2001, [0x01, 0x20, 0x01, 0x82]),
    (&[0x40], 0xB401_4001, [0x01, 0x40, 0x01, 0xB4]),
    (&[0x80], 0xD801_8001, [0x01, 0x80, 0x01, 0xD8]),
    (&[0xFF], 0x7070_FF00, [0x00, 0xFF, 0x70, 0x70]),
    (&[0x01, 0x00], 0x9001_9000, [0x00, 0x90, 0x01, 0x90]),
    (&[0x00, 0x01], 0x9091_0101, [0x01, 0x01, 0x91, 0x90]),
];

#[test]
fn edc_words(rt: HostRuntime) {
    for (row, (bytes, word, stored)) in EDC_WORDS.iter().enumerate() {
        holds(&rt, edc_of(bytes) == *word, row);
        holds(&rt, word.to_le_bytes() == *stored, row);
    }
}

/// The EDC word by a shift register that processes the bits of each byte from the lowest on.
fn register_word(bytes: &[u8]) -> u32 {
    let mut register = 0;
    for byte in bytes {
        for place in 0..8u8 {
            register ^= u32::from(*byte >> place & 1);
            let leaving = register & 1;
            register >>= 1;
            if leaving == 1 {
                register ^= 0xD801_8001;
            }
        }
    }
    register
}

/// Bytes without a pattern: all short lists of them, and lists of about the length of a sector.
#[test]
fn edc_words_against_the_register(rt: HostRuntime) {
    let mut bytes = [0; 2065];
    let mut byte = 1u8;
    for place in bytes.iter_mut() {
        byte = byte.wrapping_mul(77).wrapping_add(29) ^ (byte >> 5);
        *place = byte;
    }
    for length in 0..=200 {
        let bytes = &bytes[..length];
        holds(&rt, edc_of(bytes) == register_word(bytes), length);
    }
    for length in 2063..=2065 {
        let bytes = &bytes[..length];
        holds(&rt, edc_of(bytes) == register_word(bytes), length);
    }
}

/// The place of a single byte `01` in rows of `00`, its column, and the two sums of the column.
const SINGLE_BYTES: &[(usize, usize, (u8, u8))] = &[
    (0, 0, (0x01, 0x03)),
    (64, 64, (0x01, 0x03)),
    (117, 31, (0x01, 0x8F)),
    (2235, 85, (0x01, 0x01)),
];

#[test]
fn single_bytes_in_their_columns(rt: HostRuntime) {
    for (place, column, due) in SINGLE_BYTES {
        let mut rows = [0; 2236];
        if let Some(byte) = rows.get_mut(*place) {
            *byte = 0x01;
        }
        let sums = column_sums(&rows);
        for c in 0..86 {
            let due = if c == *column { *due } else { (0, 0) };
            holds(&rt, (sums.plain[c], sums.weighted[c]) == due, *place);
        }
    }
}

/// Column `c` of 26 rows of 86 bytes, byte by byte.
fn column_of(rows: &[u8; 2236], c: usize) -> [u8; 26]
    requires { c < 86 }
{
    let mut column = [0; 26];
    for m in 0..26 {
        column[m] = rows[86 * m + c];
    }
    column
}

#[test]
fn each_byte_against_the_syndromes_of_its_column(rt: HostRuntime) {
    let mut rows = [0; 2236];
    for place in 0..2236 {
        for value in [0x01, 0x80, 0xFF] {
            rows[place] = value;
            let sums = column_sums(&rows);
            for c in 0..86 {
                let due = syndromes(&column_of(&rows, c));
                holds(&rt, (sums.plain[c], sums.weighted[c]) == due, place);
            }
        }
        rows[place] = 0;
    }
}
