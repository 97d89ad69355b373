//! Tests of sources and sinks with concrete types.

mod buffering;
mod forms;
mod standard;
mod steps;
