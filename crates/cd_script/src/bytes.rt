//! The bytes of a patch, owned or borrowed.

ghost use Rattle.std.specs.Prelude.{◌≡◌};

use std::marker::Model;

/// The bytes of a patch, owned. Contracts see this type as a list, so a patch is compared directly
/// with a patch of the definitions.
#[derive(Debug, Drop)]
pub struct PatchBytes {
    octets: Vec<u8>,
}

impl Model for PatchBytes {
    ghost use Rattle.std.specs.Prelude.{List, ℕ};

    ghost Value = { List ℕ };

    ghost view = { λ b. b.octets.items };
}

impl PatchBytes {
    /// Wraps the bytes of a patch.
    pub(crate) fn new(octets: Vec<u8>) -> Self
        ensures { result ≡ octets.items }
    {
        PatchBytes { octets }
    }

    /// The bytes as a slice.
    ///
    /// # Examples
    ///
    /// ```
    /// let script = parse(rt.alloc(), b"cdpatch 1\nset 5 0 4869\n")?;
    /// let Some(Edit::Put { bytes, .. }) = script.patches().first().map(|patch| &patch.edit) else {
    ///     panic!(rt; "a patch of another kind");
    /// };
    /// assert_eq!(rt; bytes.as_slice(), b"Hi".as_slice());
    /// ```
    pub fn as_slice(&self) -> &[u8]
        ensures { result.now ≡ self.now }
    {
        self.octets.as_slice()
    }
}

/// The bytes of a patch, borrowed, so that the patch needs no memory of its own for them.
#[derive(Drop)]
pub struct LentBytes<'a> {
    octets: &'a [u8],
}

impl<'a> Model for LentBytes<'a> {
    ghost use Rattle.std.specs.Prelude.{List, ℕ};

    ghost Value = { List ℕ };

    ghost view = { λ b. b.octets.now };
}

impl<'a> LentBytes<'a> {
    /// Wraps borrowed bytes.
    ///
    /// # Examples
    ///
    /// ```
    /// let bytes = LentBytes::new(b"Hi");
    /// assert_eq!(rt; bytes.as_slice(), b"Hi".as_slice());
    /// ```
    pub fn new(octets: &'a [u8]) -> Self
        ensures { result ≡ octets.now }
    {
        LentBytes { octets }
    }

    /// The bytes as a slice.
    ///
    /// See the example of [`LentBytes::new`].
    pub fn as_slice(&self) -> &'a [u8]
        ensures { result.now ≡ self.now }
    {
        self.octets
    }
}
