//! The types that are sources or sinks.

pub mod buffered;
pub mod fail_after;
pub mod from_read;
pub mod short;
pub mod slice_sink;
pub mod slice_source;
pub mod to_write;
pub mod zero_source;
