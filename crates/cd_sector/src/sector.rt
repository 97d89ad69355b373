//! The 2352 bytes of a sector, and the places of its fields (ECMA-130, 14 and Annex A). Places are
//! counted from 0.
//!
//! The code of this crate and of cd_delta uses these constants. Definitions and clauses contain the
//! numbers of the standard, so that the contracts refuse a wrong constant.

ghost use Rattle.std.specs.Prelude.{◌≡◌, ◌+◌, ◌<◌, ◌≤◌, ◌⊎◌, List, ℕ, length, replicate, slice_index, slice_set};
ghost use Rattle.cd_code.specs.Field.{AreBytes};
ghost use Rattle.cd_sector.specs.Consistent.{header_of, user_of};
ghost use Rattle.cd_sector.specs.WithBytes.{Calls, CanCall};

use std::marker::Model;

/// The number of bytes in a sector (ECMA-130, 14).
pub const SECTOR_SIZE: usize = cd_code::SECTOR_SIZE;

/// The number of bytes of user data in a Mode 1 sector (ECMA-130, 14).
pub const USER_SIZE: usize = 2048;

/// The place of the header, after the sync field; the planes of the parity begin here too.
pub const HEADER: usize = cd_code::HEADER;

/// The place of the mode byte, which is the last byte of the header.
pub(crate) const MODE: usize = 15;

/// The place of the user data.
pub const USER_DATA: usize = 16;

/// The place of the four bytes of the EDC, after the user data.
pub const EDC: usize = 2064;

/// The place of the eight bytes of the Intermediate field, after the EDC.
pub const INTERMEDIATE: usize = 2068;

/// A sector: 2352 bytes of any content. It has no other bytes in memory (`repr(C)`), so 2352 bytes
/// in C are used as a `Sector` without a copy. Contracts see it as the list of its bytes.
#[derive(Clone, Copy, Debug, PartialEq, Eq)]
#[repr(C)]
pub struct Sector {
    bytes: [u8; SECTOR_SIZE],
}

impl Model for Sector {
    ghost use Rattle.std.specs.Prelude.{◌≡◌, List, ℕ, length};
    ghost use Rattle.cd_code.specs.Field.{AreBytes};
    ghost use Rattle.cd_sector.specs.declared.sector.TheConstants.{SECTOR_SIZE};

    ghost Value = { List ℕ };

    ghost view = { λ sector. sector.bytes };

    ghost invariant = { λ sector. (length sector.bytes ≡ SECTOR_SIZE) × AreBytes sector.bytes };

    ghost inverse = { λ bytes. record { bytes = bytes } };
}

impl Sector {
    /// Creates a sector from its 2352 bytes.
    ///
    /// # Examples
    ///
    /// ```
    /// let sector = Sector::from_bytes([0xA5; SECTOR_SIZE]);
    /// assert_eq!(rt; *sector.bytes(), [0xA5; SECTOR_SIZE]);
    /// ```
    pub fn from_bytes(bytes: [u8; SECTOR_SIZE]) -> Self
        ensures bytes { result ≡ bytes }
        ensures size { length result ≡ SECTOR_SIZE }
        ensures each { AreBytes result }
    {
        Sector { bytes }
    }

    /// All 2352 bytes, in order.
    ///
    /// See the example of [`Sector::from_bytes`].
    pub fn bytes(&self) -> &[u8; SECTOR_SIZE]
        ensures bytes { result.now ≡ self.now }
        ensures size { length result.now ≡ SECTOR_SIZE }
        ensures each { AreBytes result.now }
    {
        &self.bytes
    }

    /// The byte at `place`, counted from 0.
    ///
    /// See the example of [`Sector::put`].
    pub fn byte(&self, place: usize) -> u8
        requires { place < SECTOR_SIZE }
        ensures { result ≡ slice_index self.now place }
    {
        self.bytes[place]
    }

    /// Sets the byte at `place`, counted from 0, to `b`.
    ///
    /// # Examples
    ///
    /// ```
    /// let mut sector = Sector::default(); // all 00
    /// sector.put(16, 0x41);
    /// assert_eq!(rt; (sector.byte(16), sector.byte(17)), (0x41, 0x00));
    /// ```
    pub fn put(&mut self, place: usize, b: u8)
        requires { place < SECTOR_SIZE }
        ensures { self.new ≡ slice_set self.old place b }
    {
        self.bytes[place] = b;
    }

    /// Proof step: calls `f` with `context` and with the 2352 bytes in place, and returns its
    /// result. The toolchain cannot prove a method that returns a mutable reference, and knows
    /// nothing of variables that a closure captures by `&mut`. So the bytes, and everything else
    /// that `f` changes, are arguments of the call.
    ///
    /// # Examples
    ///
    /// ```
    /// let mut sector = Sector::default(); // all 00
    /// sector.with_bytes_mut(&mut 0x41, |byte, bytes| bytes[16] = *byte);
    /// assert_eq!(rt; sector.byte(16), 0x41);
    /// ```
    #[inline(always)]
    pub fn with_bytes_mut<C, R, F: FnOnce(&mut C, &mut [u8; SECTOR_SIZE]) -> R>(
        &mut self,
        context: &mut C,
        f: F,
    ) -> R
        requires { CanCall F.FnOnce f context.old self.old }
        ensures { Calls F.FnOnce f context.old self.old result context.new self.new }
    {
        let result = f(context, &mut self.bytes);
        // Restores the invariant: the list of bytes that contracts see has only numbers below 256.
        lemma_are_bytes(&self.bytes);
        result
    }

    /// The 4 bytes of the header, bytes 12 to 15: minute, second and fraction in BCD, and the mode
    /// (ECMA-130, 14).
    ///
    /// # Examples
    ///
    /// ```
    /// let sector = encode([0x00, 0x02, 0x00], &[0x00; USER_SIZE]); // block 0, at 00:02:00
    /// assert_eq!(rt; sector.header(), [0x00, 0x02, 0x00, 0x01]); // the last is the mode
    /// ```
    pub fn header(&self) -> [u8; 4]
        ensures { result ≡ header_of self.now }
    {
        [
            self.bytes[HEADER],
            self.bytes[HEADER + 1],
            self.bytes[HEADER + 2],
            self.bytes[MODE],
        ]
    }

    /// The 2048 bytes of user data, bytes 16 to 2063 (ECMA-130, 14).
    ///
    /// # Examples
    ///
    /// ```
    /// let sector = encode([0x00, 0x02, 0x00], &[0x41; USER_SIZE]);
    /// assert_eq!(rt; sector.user(), [0x41; USER_SIZE].as_slice());
    /// ```
    #[tactic(auto, unfolding(crate::specs::Consistent::user_of))]
    pub fn user(&self) -> &[u8]
        ensures user { result.now ≡ user_of self.now }
        ensures size { length result.now ≡ USER_SIZE }
    {
        &self.bytes[USER_DATA..EDC]
    }
}

impl Default for Sector {
    /// A sector of 2352 bytes `00`.
    fn default() -> Self
        ensures { result ≡ replicate SECTOR_SIZE 0 }
    {
        Sector::from_bytes([0; SECTOR_SIZE])
    }
}

/// Copies `part` over the bytes of a sector from place `at` on, counted from 0.
///
/// # Examples
///
/// ```
/// let mut bytes = [0x00; SECTOR_SIZE];
/// put_part(&mut bytes, HEADER, &[0x00, 0x02, 0x16]);
/// assert_eq!(rt; (bytes[13], bytes[14], bytes[15]), (0x02, 0x16, 0x00));
/// ```
pub fn put_part(bytes: &mut [u8; SECTOR_SIZE], at: usize, part: &[u8])
    requires { at + length part.now ≤ SECTOR_SIZE }
    ensures inside { (i : ℕ) → i < length part.now
        → slice_index bytes.new (at + i) ≡ slice_index part.now i }
    ensures outside { (k : ℕ) → (k < at) ⊎ (at + length part.now ≤ k)
        → slice_index bytes.new k ≡ slice_index bytes.old k }
{
    bytes[at..at + part.len()].copy_from_slice(part);
}

/// Proof step: does nothing. Its contract states that each byte of an array is below 256, whatever
/// code wrote it.
#[inline(always)]
pub(crate) fn lemma_are_bytes(bytes: &[u8; SECTOR_SIZE])
    ensures { AreBytes bytes.now }
{
    let _first = bytes[0];
}
