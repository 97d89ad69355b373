//! The version of the library.

ghost use Rattle.std.specs.Prelude.{◌≡◌};

/// The version as one number: 10000 times its first part, plus 100 times its second, plus its
/// third.
pub const VERSION: u32 = 20000;

/// The version of the library, [`VERSION`].
#[unsafe(no_mangle)]
pub extern "C" fn cdpatch_version() -> u32
    ensures { result ≡ 20000 }
{
    VERSION
}
