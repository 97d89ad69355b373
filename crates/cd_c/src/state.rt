//! The state of an incremental SHA-1, which C keeps between two calls.

ghost use Rattle.std.specs.Prelude.{◌≡◌};
ghost use Rattle.cd_c.specs.State.{hasher_of};

use sha1::Sha1;
use std::ptr;

/// The state of a hasher between two calls, as C's `struct cdpatch_sha1`. It has 96 bytes, and any
/// bytes are valid. Its fields are those of [`Sha1`], in the same order.
#[derive(Clone, Copy)]
#[repr(C)]
pub struct DigestState {
    // The hash value after the last complete block.
    hash: [u32; 5],
    // Begins with the bytes after the last complete block.
    block: [u8; 64],
    // The number of bytes so far, modulo 2^64.
    count: u64,
}

/// Converts a state to a hasher. The fields of [`Sha1`] are private, so the bytes of the state are
/// reinterpreted.
pub fn hasher_of(state: DigestState) -> Sha1
    ensures { result ≡ hasher_of state }
{
    unsafe { ptr::read(&raw const state as *const Sha1) }
}

/// Converts a hasher to a state, in the same way. It is the inverse of [`hasher_of`].
pub fn state_of(hasher: Sha1) -> DigestState
    ensures { hasher_of result ≡ hasher }
{
    unsafe { ptr::read(&raw const hasher as *const DigestState) }
}
