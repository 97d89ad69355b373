//! The messages of faults. The program has its own lines, and prints none of these.

use cd_image::{Fault, SinkFailed, SourceFailed};
use std::alloc::AllocError;

/// A fault of a call, and its message.
const FAULTS: &[(Fault, &str)] = &[
    (Fault::Read, "reading the image failed"),
    (Fault::Write, "writing the output failed"),
    (Fault::Log, "writing the log failed"),
    (Fault::TooLong, "the image has more than 1000000 sectors"),
];

#[test]
fn texts_of_faults(rt: HostRuntime) -> Result<(), AllocError> {
    for (fault, text) in FAULTS {
        let came = format!(in rt.alloc(); "{fault}")?;
        assert_eq!(rt; came.as_str(), *text);
    }
    Ok(())
}

#[test]
fn texts_of_failed_streams(rt: HostRuntime) -> Result<(), AllocError> {
    let read = format!(in rt.alloc(); "{}", SourceFailed)?;
    assert_eq!(rt; read.as_str(), "a read failed");
    let written = format!(in rt.alloc(); "{}", SinkFailed)?;
    assert_eq!(rt; written.as_str(), "a write or a flush failed");
    Ok(())
}
