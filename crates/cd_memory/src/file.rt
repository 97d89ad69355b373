//! A file in memory.

ghost use Rattle.std.specs.Prelude.{◌≡◌, option_map, string_bytes};
ghost use Rattle.std.specs.List.{position};
ghost use Rattle.std.specs.Str.{bytes_eq};
ghost use Rattle.cd_memory.specs.Files.{file_bytes, named_file, with_bytes};

use std::marker::Model;

/// A file: its name and its bytes. Contracts see both as lists of bytes.
#[derive(Debug, Drop)]
pub struct File {
    path: String,
    octets: Vec<u8>,
}

impl Model for File {
    ghost use Rattle.std.specs.Prelude.{string_bytes};
    ghost use Rattle.cd_memory.specs.Files.{NamedFile};

    ghost Value = { NamedFile };

    ghost view = { λ f. record { name = string_bytes f.path; bytes = f.octets.items } };
}

impl File {
    /// Creates a file with this name and these bytes.
    ///
    /// # Examples
    ///
    /// ```
    /// let name = String::from_str(rt.alloc(), "disc.bin")?;
    /// let file = File::new(name, vec![in rt.alloc(); 0; 2352]?);
    /// assert_eq!(rt; (file.name(), file.bytes().len()), ("disc.bin", 2352));
    /// ```
    pub fn new(name: String, bytes: Vec<u8>) -> Self
        ensures { result ≡ named_file (string_bytes name) bytes.items }
    {
        File {
            path: name,
            octets: bytes,
        }
    }

    /// The name of the file.
    ///
    /// See the example of [`File::new`].
    pub fn name(&self) -> &str
        ensures { result.now ≡ self.now.name }
    {
        self.path.as_str()
    }

    /// The bytes of the file.
    ///
    /// See the example of [`File::new`].
    pub fn bytes(&self) -> &[u8]
        ensures { result.now ≡ self.now.bytes }
    {
        self.octets.as_slice()
    }

    /// Replaces the bytes of the file.
    pub(crate) fn set_bytes(&mut self, bytes: Vec<u8>)
        ensures { self.new ≡ named_file self.old.name bytes.items }
    {
        self.octets = bytes;
    }
}

/// The bytes of the first file with this name, if there is one.
pub(crate) fn bytes_at<'a>(files: &'a [File], name: &str) -> Option<&'a [u8]>
    ensures { option_map (λ bytes. bytes.now) result ≡ file_bytes files.now name.now }
{
    files
        .iter()
        .find(|file| file.name() == name)
        .map(|file| file.bytes())
}

/// The index of the first file with this name, if there is one.
fn place_of(files: &[File], name: &str) -> Option<usize>
    ensures { result ≡ position (λ f. bytes_eq f.name name.now) files.now }
{
    files.iter().position(|file| file.name() == name)
}

/// Replaces the bytes of the first file with this name, if there is one.
pub(crate) fn set_bytes_at(files: &mut [File], name: &str, bytes: Vec<u8>)
    ensures { files.new ≡ with_bytes files.old name.now bytes.items }
{
    if let Some(place) = place_of(files, name) {
        files[place].set_bytes(bytes);
    }
}
