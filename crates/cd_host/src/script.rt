//! Loads the file of a script, and parses its text.

ghost use Rattle.std.specs.Prelude.{◌≡◌, ◌+◌, ◌<◌, ◌≤◌, List, Ok, IfOk, IfErr, IfSome, OnOk, OnErr, length};
ghost use Rattle.cd_read.specs.Status.{failed_status};
ghost use Rattle.cd_script.specs.Order.{order};
ghost use Rattle.cd_script.specs.Script.{script};
ghost use Rattle.cd_script.specs.Limits.{text_limit};
ghost use Rattle.cd_script.specs.declared.fault.ScriptFault.{ScriptFault};
ghost use Rattle.cd_script.specs.PatchForm.{Patch as ThePatch};
ghost use Rattle.cd_run.specs.Messages.{script_fault_line};
ghost use Rattle.cd_read.specs.Printing.{PrintsLine};
ghost use Rattle.cd_host.specs.ScriptLines.{Gathers, IsFaultOf, Loads, PrintsFailedReads};
ghost use Rattle.cd_stream.specs.Stream.{CanCountFailure};
ghost use Rattle.cd_stream.specs.Transfer.{Gives};

use crate::messages::load_fault_line;
use cd_read::print_and_fail;
use cd_run::script_fault_line;
use cd_script::{MAX_TEXT, Script, ScriptFault, parse};
use cd_stream::{Sink, Source, SourceFailed};
use std::alloc::{AllocError, Global};

/// The largest number of bytes that are read of a script at a time.
const CHUNK_SIZE: usize = 16_384;

/// Why the file of a script was not loaded.
#[derive(Clone, Copy, Debug)]
pub enum LoadFault {
    /// A read of the file failed.
    Read,
    /// The file is longer than a script may be.
    TooLong,
    /// Memory was refused.
    NoMemory,
}

impl From<SourceFailed> for LoadFault {
    ghost use Rattle.std.specs.Prelude.{◌≡◌};
    ghost use Rattle.cd_host.specs.declared.script.LoadFault.TheVariants.{Read};

    ghost from_gives = { λ _ fault. fault ≡ Read };

    fn from(_: SourceFailed) -> Self {
        LoadFault::Read
    }
}

impl From<AllocError> for LoadFault {
    ghost use Rattle.std.specs.Prelude.{◌≡◌};
    ghost use Rattle.cd_host.specs.declared.script.LoadFault.TheVariants.{NoMemory};

    ghost from_gives = { λ _ fault. fault ≡ NoMemory };

    fn from(_: AllocError) -> Self {
        LoadFault::NoMemory
    }
}

/// Parses a script of at most [`MAX_TEXT`] bytes.
///
/// # Errors
///
/// The status 2, for an error in the text or a lack of memory; its message is printed to `log`.
///
/// # Examples
///
/// ```
/// let mut space = [0; 64];
/// let mut log = SliceSink::new(&mut space);
/// let status = read_script(rt.alloc(), b"cdpatch 1\nset 0 0 4\n", &mut log).err();
/// assert_eq!(rt; status, Some(2));
/// assert!(rt; log.written().starts_with(b"script line 2: "));
/// ```
pub fn read_script<L: Sink>(alloc: Global, text: &[u8], log: &mut L) -> Result<Script, u8>
    requires size { length text.now ≤ text_limit }
    requires countable { CanCountFailure (L.seen log.old).failures }
    ensures script { IfOk result (λ s. (ps : List ThePatch) × (script text.now ≡ Ok ps)
        × (s ≡ order ps)) }
    ensures nothing_printed { OnOk result (L.seen log.new ≡ L.seen log.old) }
    ensures status { IfErr result (λ status. status ≡ failed_status) }
    ensures line { OnErr result ((fault : ScriptFault) × IsFaultOf text.now fault
        × PrintsLine (script_fault_line fault) (L.seen log.old) (L.seen log.new)) }
{
    match parse(alloc, text) {
        Ok(script) => Ok(script),
        Err(fault) => Err(print_and_fail(script_fault_line(fault).as_slice(), log)),
    }
}

/// Reads the bytes of a script's file, to its end.
fn read_all<I: Source>(alloc: Global, file: &mut I) -> Result<Vec<u8>, LoadFault>
    requires { CanCountFailure (I.seen file.old).failures }
    ensures { Gathers (λ bytes. bytes.items) (I.seen file.old) (I.seen file.new) result }
{
    let mut bytes = Vec::new(alloc);
    let mut chunk = [0; CHUNK_SIZE];
    loop {
        let left = MAX_TEXT - bytes.len();
        let room = CHUNK_SIZE.min(left + 1);
        let n = file.read(&mut chunk[..room])?;
        if n == 0 {
            return Ok(bytes);
        }
        if n > left {
            return Err(LoadFault::TooLong);
        }
        bytes.extend_from_slice(&chunk[..n])?;
    }
}

/// Reads all bytes of a script's file, at most [`MAX_TEXT`].
///
/// # Errors
///
/// The status 2, if a read fails, the file has more bytes than that, or memory is refused,
/// whichever is first; its message is printed to `log`.
///
/// # Examples
///
/// ```
/// let mut log = ToWrite::new(io::sink());
/// let mut file = SliceSource::new(b"cdpatch 1\n");
/// let text = load_script(rt.alloc(), &mut file, &mut log).ok();
/// assert_eq!(rt; text.as_deref(), Some(b"cdpatch 1\n".as_slice()));
/// ```
pub fn load_script<I: Source, L: Sink>(
    alloc: Global,
    file: &mut I,
    log: &mut L,
) -> Result<Vec<u8>, u8>
    requires file_countable { CanCountFailure (I.seen file.old).failures }
    requires log_countable { CanCountFailure (L.seen log.old).failures }
    ensures loads { Loads (λ bytes. bytes.items) (I.seen file.old) (I.seen file.new)
        (L.seen log.old) (L.seen log.new) result }
    ensures whole { IfOk result
        (λ bytes. IfSome (I.seen file.old).rest (λ all. bytes.items ≡ all)) }
    ensures given { IfOk result
        (λ bytes. Gives (I.seen file.old) (I.seen file.new) bytes.items) }
    ensures within { IfOk result (λ bytes. length bytes.items ≤ text_limit) }
    ensures nothing_printed { OnOk result (L.seen log.new ≡ L.seen log.old) }
    ensures failed_reads { PrintsFailedReads (I.seen file.old) (I.seen file.new) (L.seen log.old)
        (L.seen log.new) result }
{
    match read_all(alloc, file) {
        Ok(bytes) => Ok(bytes),
        Err(fault) => Err(print_and_fail(load_fault_line(fault).as_slice(), log)),
    }
}
