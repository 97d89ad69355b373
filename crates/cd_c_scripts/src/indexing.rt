//! The call of C that reads a script into entries.

ghost use Rattle.std.specs.Prelude.{◌≡◌, ◌↔◌, ◌<◌, ◌≤◌, Err, IfOk, length};
ghost use Rattle.cd_script.specs.FaultNumbers.{fault_number, line_of};
ghost use Rattle.cd_script.specs.Limits.{text_limit};
ghost use Rattle.cd_script.specs.Script.{script as patches_in};
ghost use Rattle.cd_script.specs.declared.fault.ScriptFault.{ScriptFault as TheFault};
ghost use Rattle.cd_c_scripts.specs.Entries.{IsRead};

use crate::entries::{Entry, index_script, version_number};
use cd_script::MAX_TEXT;

/// The script is valid, and each patch has an entry.
const SCRIPT_VALID: u32 = 0;

/// The script has an error.
const SCRIPT_INVALID: u32 = 1;

/// The script is too long.
const SCRIPT_TOO_LONG: u32 = 2;

/// The script has more patches than there are entries.
const SCRIPT_CAPACITY: u32 = 3;

/// What a script has, as C's `struct cdpatch_index`.
#[derive(Clone, Copy)]
#[repr(C)]
pub struct Index {
    /// The number of its patches.
    pub count: usize,
    /// The number of its version; 0 if it is invalid or too long.
    pub version: u32,
    /// The number of its error, of `enum cdpatch_content`; 0 if it has none.
    pub fault: u32,
    /// The line of the error, else 0.
    pub line: u32,
    /// Room for a later release.
    pub spare: [u32; 3],
}

/// An index without patches.
const NO_PATCHES: Index = Index {
    count: 0,
    version: 0,
    fault: 0,
    line: 0,
    spare: [0; 3],
};

/// Reads a whole script, and writes an entry for each of its patches to `entries`, in the order in
/// which they are applied. `index` gets their number and the version of the script, or the error. If
/// there are more patches than entries, the entries have no meaning.
#[unsafe(no_mangle)]
pub extern "C" fn cdpatch_index_script(
    script: &[u8],
    entries: &mut [Entry],
    index: &mut Index,
) -> u32
    ensures too_long { text_limit < length script.now
        → (result ≡ SCRIPT_TOO_LONG) × (index.new ≡ NO_PATCHES) × (entries.new ≡ entries.old) }
    ensures fault { length script.now ≤ text_limit → (e : TheFault) → patches_in script.now ≡ Err e
        → (result ≡ SCRIPT_INVALID)
        × (index.new ≡ record NO_PATCHES { fault = fault_number e; line = line_of e }) }
    ensures valid { length script.now ≤ text_limit → IfOk (patches_in script.now)
        (λ ps. (index.new.count ≡ length ps) × (index.new.fault ≡ 0) × (index.new.line ≡ 0)) }
    ensures read { length script.now ≤ text_limit → IfOk (patches_in script.now)
        (λ ps. result ≡ SCRIPT_VALID ↔ length ps ≤ length entries.old) }
    ensures capacity { length script.now ≤ text_limit → IfOk (patches_in script.now)
        (λ ps. result ≡ SCRIPT_CAPACITY ↔ length entries.old < length ps) }
    ensures indexed { length script.now ≤ text_limit → IfOk (patches_in script.now)
        (λ ps. IsRead script.now index.new.version index.new.count entries.new) }
    ensures size { length entries.new ≡ length entries.old }
{
    *index = NO_PATCHES;
    if script.len() > MAX_TEXT {
        return SCRIPT_TOO_LONG;
    }
    match index_script(script, entries) {
        Err(fault) => {
            index.fault = fault.number();
            index.line = fault.line();
            SCRIPT_INVALID
        }
        Ok(found) => {
            index.count = found.count;
            index.version = version_number(found.version);
            if found.count > entries.len() {
                return SCRIPT_CAPACITY;
            }
            SCRIPT_VALID
        }
    }
}
