//! Errors of the command line, with their messages.
ghost use Rattle.std.specs.Prelude.{◌≡◌, None, option_map};
ghost use Rattle.cd_args.specs.Fault.{asks_for_help, fault_from, printed};
ghost use Rattle.cd_args.specs.declared.fault.LineFault.TheVariants.{NoMemory};

use clap::error::ErrorKind;
use std::alloc::{AllocError, Global};
use thiserror::Error;

/// The line that is printed if memory runs out.
pub const NO_MEMORY: &str = "cdpatch: no memory\n";

/// Why the command line gives no job. It contains the parser's error, so its type depends on clap.
#[derive(Debug, Drop, Error)]
pub enum LineFault {
    /// The parser rejects the arguments, or they request help.
    #[error("{0}")]
    Parser(clap::Error),
    /// Memory ran out, in the parser or outside of it.
    #[error("cdpatch: no memory")]
    NoMemory,
}

impl From<clap::Error> for LineFault {
    ghost from_gives = { λ error fault. fault ≡ fault_from error };

    fn from(error: clap::Error) -> LineFault {
        if error.kind() == ErrorKind::OutOfMemory {
            LineFault::NoMemory
        } else {
            LineFault::Parser(error)
        }
    }
}

impl From<AllocError> for LineFault {
    ghost from_gives = { λ _ fault. fault ≡ NoMemory };

    fn from(_error: AllocError) -> LineFault {
        LineFault::NoMemory
    }
}

impl LineFault {
    /// Whether help was requested, which is not an error.
    ///
    /// See the example of [`refusal_line`].
    pub fn asks_for_help(&self) -> bool
        ensures { result ≡ asks_for_help self.now }
    {
        match self {
            LineFault::Parser(error) => !error.use_stderr(),
            LineFault::NoMemory => false,
        }
    }

    /// The parser's message, with its last line feed. `None` if memory ran out in the parser, or
    /// for the text.
    ///
    /// See the example of [`refusal_line`].
    pub fn parser_text(&self, alloc: Global) -> Option<String>
        ensures { self.now ≡ NoMemory → result ≡ None }
    {
        match self {
            LineFault::Parser(error) => error.to_string(alloc).ok(),
            LineFault::NoMemory => None,
        }
    }
}

/// The text that the program prints for an error: the parser's message, or [`NO_MEMORY`] if there
/// is none. It is separate from `parser_text`, so that printing [`NO_MEMORY`] needs no memory.
///
/// # Examples
///
/// ```
/// let fault = LineFault::NoMemory;
/// let text = fault.parser_text(rt.alloc()); // None
/// assert_eq!(rt; refusal_line(text.as_deref()), NO_MEMORY);
/// assert!(rt; !fault.asks_for_help());
/// ```
pub fn refusal_line(parser_text: Option<&str>) -> &str
    ensures { result.now ≡ printed (option_map (λ text. text.now) parser_text.entry) }
{
    parser_text.unwrap_or(NO_MEMORY)
}
