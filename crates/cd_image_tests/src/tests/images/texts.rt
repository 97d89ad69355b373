//! Texts of scripts with a repeated part.

use std::alloc::{AllocError, Global};

/// A text, a number of copies of a part, and an end.
pub fn repeated(
    alloc: Global,
    text: &str,
    part: &str,
    count: u32,
    end: &str,
) -> Result<String, AllocError> {
    let mut all = String::new(alloc);
    all.push_str(text)?;
    for _ in 0..count {
        all.push_str(part)?;
    }
    all.push_str(end)?;
    Ok(all)
}
