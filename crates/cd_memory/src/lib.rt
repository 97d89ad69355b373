//! Runs the program over files in memory, and states the theorem about it. The theorem relates the
//! arguments and the existing files to the status, the text, and each byte of the new file.
//!
//! ```
//! let alloc = rt.alloc();
//! let mut args = Vec::new(alloc);
//! for word in ["list", "disc.bin"] {
//!     args.push(String::from_str(alloc, word)?)?;
//! }
//! let name = String::from_str(alloc, "disc.bin")?;
//! let files = Vec::from_array(alloc, [File::new(name, vec![in alloc; 0; 2353]?)])?;
//! let ended = run_on_files(alloc, args, &files, &[]);
//! assert_eq!(rt; ended.status, 0);
//! let text = b"0-0 nosync\nsectors 1 tail 1\n";
//! assert_eq!(rt; ended.text.as_slice(), text.as_slice());
//! ```
//!
//! [`run_on_files`] runs the same code as `main`, over a host about which everything is known, so
//! the theorem can state each byte. Read its contract to learn what the program does. A new file
//! cannot be read again; no command does so. If memory is refused, a text or a file may lack its
//! end, and the theorem says so in each case.
//!
//! Tests: the examples.
#![tactic(auto)]

mod file;
mod growing;
mod memory;
mod run;

pub use file::File;
pub use growing::Growing;
pub use memory::Memory;
pub use run::{Ended, run_on_files};
