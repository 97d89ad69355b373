//! Why a call on an image ended early.

ghost use Rattle.std.specs.Prelude.{◌≡◌};
ghost use Rattle.cd_read.specs.declared.fault.Fault.TheVariants.{Log, Read, Write};

use cd_sector::MAX_SECTORS;
use cd_stream::{SinkFailed, SourceFailed};
use thiserror::Error;

/// Why a call on an image ended early. It ends at its first error. `Write` and `Log` are the errors
/// of the calls in cd_report and cd_image.
#[derive(Clone, Copy, Debug, PartialEq, Eq, Drop, Error)]
pub enum Fault {
    /// A read of the image failed.
    #[error("reading the image failed")]
    Read,
    /// A write to the output, or its flush, failed.
    #[error("writing the output failed")]
    Write,
    /// A write to the log, or its flush, failed.
    #[error("writing the log failed")]
    Log,
    /// A byte was read after the millionth sector.
    #[error("the image has more than {MAX_SECTORS} sectors")]
    TooLong,
}

impl From<SourceFailed> for Fault {
    ghost from_gives = { λ _ fault. fault ≡ Read };

    fn from(_: SourceFailed) -> Self {
        Fault::Read
    }
}

impl From<SinkFailed> for Fault {
    ghost from_gives = { λ _ fault. fault ≡ Write };

    fn from(_: SinkFailed) -> Self {
        Fault::Write
    }
}

/// A write or a flush of the log failed, and the sink has counted the failure. It is a separate
/// type so that `?` maps it to `Fault::Log`; a `SinkFailed` becomes the `Fault` of the output.
#[derive(Clone, Copy, Debug)]
pub struct LogFailed;

impl From<SinkFailed> for LogFailed {
    fn from(_: SinkFailed) -> Self {
        LogFailed
    }
}

impl From<LogFailed> for Fault {
    ghost from_gives = { λ _ fault. fault ≡ Log };

    fn from(_: LogFailed) -> Self {
        Fault::Log
    }
}
