//! One line of a report, a log, or a message, built in a fixed buffer.
//!
//! ```
//! let mut line = Line::new();
//! line.push_text(b"sectors ");
//! line.push_number(8);
//! assert_eq!(rt; line.as_slice(), b"sectors 8".as_slice());
//! ```
//!
//! A [`Line`] has at most [`LINE_SIZE`] bytes, and allocates no memory.
//!
//! Tests: the examples, and `crates/cd_image_tests`.
#![tactic(auto)]

mod line;

pub use line::{LINE_SIZE, Line, text_line};
