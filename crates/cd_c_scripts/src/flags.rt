//! The flags of a call: a sum of numbers of `enum cdpatch_flag`.

ghost use Rattle.std.specs.Prelude.{◌≡◌};
ghost use Rattle.cd_c_scripts.specs.Flags.{carries, compares, ends};

/// The flag that damage is carried.
const CARRY: u32 = 1;

/// The flag that the image ends with the piece.
const LAST: u32 = 2;

/// The flag that old bytes are not compared.
const WITHOUT_OLD: u32 = 4;

/// All flags are below this number.
pub(crate) const FLAGS: u32 = 8;

/// Whether damage is carried.
pub(crate) fn carries(flags: u32) -> bool
    ensures { result ≡ carries flags }
{
    flags / CARRY % 2 == 1
}

/// Whether the image ends with the piece.
pub(crate) fn ends(flags: u32) -> bool
    ensures { result ≡ ends flags }
{
    flags / LAST % 2 == 1
}

/// Whether old bytes are compared.
pub(crate) fn compares(flags: u32) -> bool
    ensures { result ≡ compares flags }
{
    flags / WITHOUT_OLD % 2 == 0
}
