//! Encodes Mode 1 sectors: finds the one consistent sector with a given content.

ghost use Rattle.std.specs.Prelude.{◌≡◌, ℕ, ◌<◌, ◌≤◌, List, [], ◌∷◌, ◌++◌, slice_index, take};
ghost use Rattle.cd_code.specs.Edc.{bits, remainder};
ghost use Rattle.cd_code.specs.Field.{AreBytes};
ghost use Rattle.cd_code.specs.CodeWords.{AllCodeWords};
ghost use Rattle.cd_sector.specs.Consistent.{IsConsistent, header_of, user_of};
ghost use Rattle.cd_sector.specs.Kind.{kind_of, sync_field};
ghost use Rattle.cd_sector.specs.Laws.{IsEncoded};
ghost use Rattle.cd_sector.specs.declared.kinds.SectorKind.TheVariants.{Mode1};

use crate::edc_field::fill_edc;
use crate::kinds::SYNC;
use crate::parity::fill_code_words;
use crate::sector::{
    HEADER, INTERMEDIATE, MODE, SECTOR_SIZE, Sector, USER_DATA, USER_SIZE, lemma_are_bytes,
    put_part,
};

/// Encodes a sector: returns the one consistent sector with these three header bytes (of any
/// value), the mode byte 01, and this user data (ECMA-130, 14 and Annex A).
///
/// # Examples
///
/// ```
/// let sector = encode([0x00, 0x02, 0x00], &[0x41; USER_SIZE]); // block 0
/// assert_eq!(rt; kind(&sector), SectorKind::Mode1);
/// assert_eq!(rt; stored_edc(sector.bytes()), edc_of(&sector.bytes()[..EDC]));
/// ```
pub fn encode(header: [u8; 3], user: &[u8; USER_SIZE]) -> Sector
    ensures consistent { IsConsistent result }
    ensures header { header_of result ≡ header ++ 1 ∷ [] }
    ensures user { user_of result ≡ user.now }
    ensures unique { (s : List ℕ) → IsConsistent s → header_of s ≡ header ++ 1 ∷ []
        → user_of s ≡ user.now → s ≡ result }
{
    let mut bytes = [0; SECTOR_SIZE];
    fill_sector(&mut bytes, header, user);
    Sector::from_bytes(bytes)
}

/// Overwrites a sector of any content with the sector that [`encode`] returns
/// (ECMA-130, 14 and Annex A).
///
/// # Examples
///
/// ```
/// let mut sector = Sector::from_bytes([0xFF; SECTOR_SIZE]);
/// encode_into(&mut sector, [0x00, 0x02, 0x00], &[0x41; USER_SIZE]);
/// assert!(rt; sector == encode([0x00, 0x02, 0x00], &[0x41; USER_SIZE]));
/// ```
pub fn encode_into(s: &mut Sector, header: [u8; 3], user: &[u8; USER_SIZE])
    ensures consistent { IsConsistent s.new }
    ensures header { header_of s.new ≡ header ++ 1 ∷ [] }
    ensures user { user_of s.new ≡ user.now }
    ensures unique { (t : List ℕ) → IsConsistent t → header_of t ≡ header ++ 1 ∷ []
        → user_of t ≡ user.now → t ≡ s.new }
{
    s.with_bytes_mut(&mut (), |_, bytes| fill_sector(bytes, header, user));
}

/// Recalculates the EDC, the Intermediate field, and the parity of a Mode 1 sector. It becomes the
/// one consistent sector with its header and its user data (ECMA-130, 14 and Annex A).
///
/// # Examples
///
/// ```
/// let mut sector = encode([0x00, 0x02, 0x00], &[0x41; USER_SIZE]);
/// let sound = sector;
/// sector.put(2351, 0xFF); // the last byte of Q parity
/// assert_eq!(rt; kind(&sector), SectorKind::Mode1);
/// rebuild(&mut sector);
/// assert!(rt; sector == sound);
/// ```
pub fn rebuild(s: &mut Sector)
    requires mode { kind_of s.old ≡ Mode1 }
    ensures consistent { IsConsistent s.new }
    ensures header { header_of s.new ≡ header_of s.old }
    ensures user { user_of s.new ≡ user_of s.old }
    ensures unique { (t : List ℕ) → IsConsistent t → header_of t ≡ header_of s.old
        → user_of t ≡ user_of s.old → t ≡ s.new }
{
    s.with_bytes_mut(&mut (), |_, bytes| fill_codes(bytes));
}

/// Writes all bytes of a Mode 1 sector with this content.
#[inline(always)]
fn fill_sector(bytes: &mut [u8; SECTOR_SIZE], header: [u8; 3], user: &[u8; USER_SIZE])
    ensures { IsEncoded header user.now bytes.new }
{
    put_content(bytes, header, user);
    fill_codes(bytes);
}

/// Writes the sync field, the header, and the user data of a Mode 1 sector.
#[inline(always)]
fn put_content(bytes: &mut [u8; SECTOR_SIZE], header: [u8; 3], user: &[u8; USER_SIZE])
    ensures { (k : ℕ) → k < 2064
        → slice_index bytes.new k ≡ slice_index (sync_field ++ (header ++ 1 ∷ user.now)) k }
{
    put_part(bytes, 0, &SYNC);
    put_part(bytes, HEADER, &header);
    put_part(bytes, MODE, &[1]);
    put_part(bytes, USER_DATA, user);
}

/// Writes the fields after the user data of a Mode 1 sector: the EDC, the Intermediate field, and
/// the parity.
fn fill_codes(bytes: &mut [u8; SECTOR_SIZE])
    ensures front { (k : ℕ) → k < 2064 → slice_index bytes.new k ≡ slice_index bytes.old k }
    ensures zeros { (k : ℕ) → 2068 ≤ k → k < 2076 → slice_index bytes.new k ≡ 0 }
    ensures edc { remainder (bits (take 2068 bytes.new)) ≡ 0 }
    ensures words { AllCodeWords bytes.new }
    ensures each { AreBytes bytes.new }
{
    put_part(bytes, INTERMEDIATE, &[0; 8]);
    fill_edc(bytes, 0);
    fill_code_words(bytes);
    lemma_are_bytes(bytes);
}
