//! Applies one patch of a script to the sectors that it meets: decides whether the patch is
//! accepted, and changes the sectors (ECMA-130, 14 and Annex A).
//!
//! ```
//! let script = parse(rt.alloc(), b"cdpatch 1\nset 0 0 41\n")?;
//! let mut sectors = [encode([0x00, 0x02, 0x00], &[0x00; USER_SIZE])]; // block 0
//! for patch in script.patches() {
//!     assert_eq!(rt; apply_patch(&mut sectors, patch, false), Outcome::Applied);
//! }
//! ```
//!
//! A patch meets one block, or the two or three in which its bytes lie ([`blocks_met`], at most
//! [`MAX_BLOCKS_MET`]). It is refused if the image does not have a block, if a sector is not of
//! Mode 1 or is damaged, or if an old byte differs; then no sector changes. Otherwise each sector
//! that it meets becomes the one consistent sector with its part of the patched user data. If
//! damage is carried, a damaged sector is patched too, and keeps its damage. No call allocates
//! memory.
//!
//! Tests: `crates/cd_low_tests`, and on whole images `crates/cd_image_tests`.
#![tactic(auto)]

mod deciding;
mod edits;
mod effect;
mod laws;
mod outcome;
pub mod result_numbers;

pub use edits::{MAX_BLOCKS_MET, blocks_met, blocks_met_spelled};
pub use effect::{apply_lent, apply_patch};
pub use laws::{
    hand_sequence_is_run, hand_stands_for_image, leaves_one, never_damaged, nothing_to_carry,
    sequence_exists, sequence_is_determined, sequence_leaves_others, sequences_agree,
};
pub use outcome::Outcome;
