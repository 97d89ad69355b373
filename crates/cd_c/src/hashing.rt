//! Incremental SHA-1 (FIPS 180-4): begin, add bytes any number of times, end.

ghost use Rattle.std.specs.Prelude.{◌≡◌, ◌++◌, ℕ, List, []};
ghost use Rattle.sha1.specs.Sha1.{sha1};
ghost use Rattle.cd_c.specs.State.{HasHashed};

use crate::state::{DigestState, hasher_of, state_of};
use sha1::{DIGEST_LEN, Sha1};

/// Begins an empty message, whatever `state` contained.
#[unsafe(no_mangle)]
pub extern "C" fn cdpatch_sha1_begin(state: &mut DigestState)
    ensures { HasHashed state.new [] }
{
    *state = state_of(Sha1::new());
}

/// Adds the next bytes to the message.
#[unsafe(no_mangle)]
pub extern "C" fn cdpatch_sha1_add(state: &mut DigestState, bytes: &[u8])
    ensures { (m : List ℕ) → HasHashed state.old m → HasHashed state.new (m ++ bytes.now) }
{
    let mut hasher = hasher_of(*state);
    hasher.update(bytes);
    *state = state_of(hasher);
}

/// Writes the SHA-1 of the message so far to `digest`. The state does not change, and more bytes
/// can be added.
#[unsafe(no_mangle)]
pub extern "C" fn cdpatch_sha1_end(state: &DigestState, digest: &mut [u8; DIGEST_LEN])
    ensures { (m : List ℕ) → HasHashed state.now m → digest.new ≡ sha1 m }
{
    *digest = hasher_of(*state).finalize();
}
