//! The versions of the script language.

ghost use Rattle.std.specs.Prelude.{◌≡◌, ◌<◌, ◌⊎◌, Some};
ghost use Rattle.cd_script.specs.VersionNumbers.{numbered_version, version_number};

/// A version of the script language, named in the head line.
#[derive(Clone, Copy, Debug, PartialEq, Eq, Drop)]
pub enum Version {
    /// `cdpatch 1`: `set`, `fill` and `rebuild`.
    One,
    /// `cdpatch 2`: the verbs of version 1, and `address`.
    Two,
}

impl Version {
    /// The number of the version in calls of C: 1 or 2. The number of a later version is over 255.
    ///
    /// # Examples
    ///
    /// ```
    /// assert_eq!(rt; Version::Two.number(), 2);
    /// assert_eq!(rt; Version::of_number(2), Some(Version::Two));
    /// assert_eq!(rt; Version::of_number(3), None);
    /// ```
    pub fn number(self) -> u32
        ensures number { result ≡ version_number self }
        ensures named { numbered_version result ≡ Some self }
        ensures apart { (result < 3) ⊎ (255 < result) }
    {
        match self {
            Version::One => 1,
            Version::Two => 2,
        }
    }

    /// The version with this number; `None` for any other number.
    ///
    /// See the example of [`Version::number`].
    pub fn of_number(number: u32) -> Option<Self>
        ensures { result ≡ numbered_version number }
    {
        match number {
            1 => Some(Version::One),
            2 => Some(Version::Two),
            _ => None,
        }
    }
}
