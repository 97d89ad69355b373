//! Parses the texts of scripts.

use cd_script::{MAX_TEXT, Script, parse};
use std::alloc::Global;
use std::test::Fail;

/// The script of a text without errors.
pub fn script_of(alloc: Global, text: &str) -> Result<Script, Fail> {
    if text.len() > MAX_TEXT {
        return Err("too long a script".into());
    }
    Ok(parse(alloc, text.as_bytes())?)
}
