//! Changes bytes of a Mode 1 sector, and updates its parity without encoding it again: the
//! difference that the change of a byte makes is added to the parity (ECMA-130, Annex A).
//!
//! ```
//! let mut sector = encode([0x00, 0x02, 0x00], &[0x00; USER_SIZE]);
//! change_user(&mut sector, 0, &[0x41; USER_SIZE]);
//! assert!(rt; sector == encode([0x00, 0x02, 0x00], &[0x41; USER_SIZE]));
//! ```
//!
//! A change of one of bytes 12 to 2075 changes eight bytes of parity ([`parity_changes`]): two in
//! its column, two in its diagonal, and two in each diagonal through those of its column.
//!
//! [`change_user`] and [`change_header`] write user data and an address, with the correct EDC
//! (ECMA-130, 14). [`carry_user`] and [`carry_header`] keep the error of the EDC. All four keep the
//! values of the 276 syndromes. No call allocates memory.
//!
//! Tests: `crates/cd_low_tests/src/tests/changes.rt`.
#![tactic(auto)]

mod byte_by_byte;
mod carrying;
mod changes;
mod difference;
mod header;
mod laws;
mod user_data;

pub use byte_by_byte::change_byte;
pub use carrying::{carry_header, carry_user};
pub use changes::{Change, parity_changes};
pub use header::change_header;
pub use laws::one_diagonal;
pub use user_data::change_user;
