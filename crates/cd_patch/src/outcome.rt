//! The outcome of a patch.

ghost use Rattle.std.specs.Prelude.{◌≡◌, ◌≢◌, IfSome, Some};
ghost use Rattle.cd_patch.specs.Outcome.{is_applied};
ghost use Rattle.cd_patch.specs.OutcomeNumbers.{no_patch, outcome_block, outcome_number, outcome_of, outcome_offset};

use crate::result_numbers::{DAMAGED, DIFFERS, NO_BLOCK, NOT_MODE1, OK};

/// Whether a patch was accepted, or why it was refused. Blocks are given by their numbers, which
/// begin at the base.
#[derive(Clone, Copy, Debug, PartialEq, Eq, Drop)]
pub enum Outcome {
    /// The patch was accepted, and each block that it meets holds its bytes.
    Applied,
    /// The patch meets this block, which the image does not have.
    NoBlock(u32),
    /// The patch meets this block, whose sector is not of Mode 1.
    NotMode1(u32),
    /// The patch meets this block, whose sector is not consistent.
    Damaged(u32),
    /// The user byte at this offset of this block is not the old byte that the patch names.
    Differs(u32, u16),
}

impl Outcome {
    /// Whether the patch was accepted.
    ///
    /// # Examples
    ///
    /// ```
    /// assert!(rt; Outcome::Applied.is_applied());
    /// assert!(rt; !Outcome::NoBlock(5).is_applied());
    /// ```
    pub fn is_applied(self) -> bool
        ensures { result ≡ is_applied self }
    {
        match self {
            Outcome::Applied => true,
            Outcome::NoBlock(_) | Outcome::NotMode1(_) => false,
            Outcome::Damaged(_) | Outcome::Differs(..) => false,
        }
    }

    /// The number of the outcome in C calls, one of [`result_numbers`](crate::result_numbers).
    ///
    /// # Examples
    ///
    /// ```
    /// assert_eq!(rt; Outcome::NoBlock(5).number(), 4);
    /// assert_eq!(rt; Outcome::of_number(4, 5, 0), Some(Outcome::NoBlock(5)));
    /// assert_eq!(rt; Outcome::of_number(3, 5, 0), None);
    /// ```
    pub fn number(self) -> u32
        ensures number { result ≡ outcome_number self }
        ensures named { outcome_of result (outcome_block self) (outcome_offset self) ≡ Some self }
        ensures patch { result ≢ no_patch }
    {
        match self {
            Outcome::Applied => OK,
            Outcome::NotMode1(_) => NOT_MODE1,
            Outcome::Damaged(_) => DAMAGED,
            Outcome::NoBlock(_) => NO_BLOCK,
            Outcome::Differs(..) => DIFFERS,
        }
    }

    /// Converts a result number to an `Outcome` at this block and user byte; `None` if the number
    /// does not belong to an outcome.
    ///
    /// See the example of [`Outcome::number`].
    pub fn of_number(number: u32, block: u32, offset: u16) -> Option<Self>
        ensures outcome { result ≡ outcome_of number block offset }
        ensures numbered { IfSome result (λ o. outcome_number o ≡ number) }
    {
        match number {
            OK => Some(Outcome::Applied),
            NOT_MODE1 => Some(Outcome::NotMode1(block)),
            DAMAGED => Some(Outcome::Damaged(block)),
            NO_BLOCK => Some(Outcome::NoBlock(block)),
            DIFFERS => Some(Outcome::Differs(block, offset)),
            _ => None,
        }
    }
}
