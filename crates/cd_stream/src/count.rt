//! A counter that only contracts can read.

ghost use Rattle.std.specs.Prelude.{◌≡◌, ℕ, ◌+◌, Option, List, [], ◌∷◌, length, sum};
ghost use Rattle.std.specs.Option.{unwrap_or};
ghost use Rattle.std.specs.Mem.{manually_drop_value};

use std::fmt::{self, Debug, Formatter, Write};
use std::marker::Model;
use std::mem::{self, ManuallyDrop};
use std::snapshot::Snapshot;

/// One increment, linked to the earlier ones. A contract sees the list of all increments, the last
/// one first.
#[derive(Drop)]
struct More {
    before: ManuallyDrop<Snapshot<Option<More>>>,
    more: usize,
}

impl Model for More {
    ghost Value = { List ℕ };

    ghost view = { λ m. m.more ∷ unwrap_or (manually_drop_value m.before).value [] };

    ghost size = { length };
}

/// A counter that only contracts can read: it occupies no bytes, and adding to it costs nothing. A
/// contract sees its value as a number. Sources and sinks over files count with it, since a machine
/// integer would end at its largest value and cost instructions, and a ghost field cannot hold a
/// number.
#[derive(Drop)]
pub struct Count {
    // Nothing is dropped, so that a value with a count can be dropped after the data that it
    // borrows.
    number: ManuallyDrop<Snapshot<Option<More>>>,
}

impl Model for Count {
    ghost Value = { ℕ };

    ghost view = { λ c. sum (unwrap_or (manually_drop_value c.number).value []) };
}

impl Debug for Count {
    fn fmt<W: Write>(&self, f: &mut Formatter<W>) -> fmt::Result {
        f.write_str("Count")
    }
}

impl Count {
    /// A count of 0.
    ///
    /// # Examples
    ///
    /// ```
    /// let mut count = Count::zero();
    /// count.add(3);
    /// count.add(4); // 7 for a clause, and still no byte
    /// ```
    pub fn zero() -> Self
        ensures { result ≡ 0 }
    {
        Count {
            number: ManuallyDrop::new(Snapshot::of(&None)),
        }
    }

    /// Adds `n`.
    ///
    /// See the example of [`Count::zero`].
    pub fn add(&mut self, n: usize)
        ensures { self.new ≡ self.old + n }
    {
        let before = mem::replace(self, Count::zero()).number;
        let more = More { before, more: n };
        self.number = ManuallyDrop::new(Snapshot::of(&Some(more)));
    }
}
