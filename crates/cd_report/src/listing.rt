//! Lists an image: its runs of sectors of the same kind.

ghost use Rattle.std.specs.Prelude.{◌≡◌, ◌+◌, ◌-◌, ◌<◌, ◌≤◌, ◌↔◌, [], true, IfOk, IfSome, OnOk};
ghost use Rattle.std.specs.Prelude.{length};
ghost use Rattle.cd_report.specs.ListText.{kind_name, list_end, list_report, run_line};
ghost use Rattle.cd_report.specs.OpenRun.{EndsBefore, open_first, open_kinds};
ghost use Rattle.cd_read.specs.Ends.{AnswersByEnd, AnswersByLength, AnswersTooLong, EndsWell};
ghost use Rattle.cd_report.specs.Report.{Reports, WritesText};
ghost use Rattle.cd_report.specs.Runs.{runs};
ghost use Rattle.cd_report.specs.Scanning.{ExtendsRun, last_line};
ghost use Rattle.cd_stream.specs.Transfer.{Counts, CountsFlush, Sends};
ghost use Rattle.cd_stream.specs.Stream.{CanCountFailure};
ghost use Rattle.cd_sector.specs.Image.{base_limit};

use crate::MAX_BASE;
use crate::scan::{Visitor, scan};
use cd_line::{LINE_SIZE, Line};
use cd_read::Fault;
use cd_sector::{Sector, SectorKind, kind};
use cd_stream::{Sink, SinkFailed, Source, write_all};

/// The counts of a listing: complete sectors, and the bytes after them.
#[derive(Clone, Copy, Debug, PartialEq, Eq)]
pub struct ListTally {
    pub sectors: u32,
    pub tail: u16,
}

/// A run of neighbouring sectors of one kind, by block numbers, as far as it was read.
#[derive(Clone, Copy)]
pub(crate) struct OpenRun {
    first: u32,
    last: u32,
    kind: SectorKind,
}

/// The name of a kind in a listing.
#[tactic(auto, unfolding(crate::specs::ListText::kind_name))]
fn name_of(kind: SectorKind) -> &'static [u8]
    ensures name { result.now ≡ kind_name kind }
    ensures short { length result.now ≤ 6 }
{
    match kind {
        SectorKind::NoSync => b"nosync",
        SectorKind::Mode0 => b"mode0",
        SectorKind::Mode1 => b"mode1",
        SectorKind::Mode2 => b"mode2",
        SectorKind::Other => b"other",
    }
}

/// Formats `FIRST-LAST KIND`, the line of a run of sectors of one kind, by block numbers.
///
/// # Examples
///
/// ```
/// let line = run_line(16, 18, SectorKind::Mode1);
/// assert_eq!(rt; line.as_slice(), b"16-18 mode1\n".as_slice());
/// ```
#[tactic(auto, unfolding(crate::specs::ListText::run_line))]
pub fn run_line(first: u32, last: u32, kind: SectorKind) -> Line
    requires { first ≤ last }
    ensures line { result ≡ run_line first (record { kind = kind; count = last + 1 - first }) }
    ensures some { 0 < length result }
    ensures room { length result ≤ LINE_SIZE }
{
    let mut line = Line::new();
    line.push_number(first);
    line.push_text(b"-");
    line.push_number(last);
    line.push_text(b" ");
    line.push_text(name_of(kind));
    line.push_text(b"\n");
    line
}

/// Writes the line of a run. Both block numbers are below 2,000,000, since the base is at most
/// 449,849 and an image has at most a million sectors.
fn send_run<O: Sink>(run: OpenRun, out: &mut O) -> Result<(), SinkFailed>
    requires countable { CanCountFailure (O.seen out.old).failures }
    requires ordered { run.first ≤ run.last }
    ensures { Sends (O.seen out.old) (O.seen out.new)
        (run_line run.first (record { kind = run.kind; count = run.last + 1 - run.first })) result }
{
    write_all(out, run_line(run.first, run.last, run.kind).as_slice())
}

/// Extends the open run by the next sector, or writes its line and opens a new run. It changes the
/// run in place, so a sector of the same kind costs one store. After an `Err` the run is unchanged.
fn extend_run<O: Sink>(
    run: &mut Option<OpenRun>,
    block: u32,
    kind: SectorKind,
    out: &mut O,
) -> Result<(), SinkFailed>
    requires countable { CanCountFailure (O.seen out.old).failures }
    requires follows { EndsBefore run.old block }
    ensures text { ExtendsRun run.old run.new block kind (O.seen out.old) (O.seen out.new) result }
    ensures flushes { (O.seen out.new).flushes ≡ (O.seen out.old).flushes }
    ensures count { Counts (O.seen out.old).failures (O.seen out.new).failures result }
{
    if let Some(open_run) = run {
        if open_run.kind == kind {
            open_run.last = block;
            return Ok(());
        }
        send_run(*open_run, out)?;
    }
    *run = Some(OpenRun {
        first: block,
        last: block,
        kind,
    });
    Ok(())
}

/// Formats `sectors S tail T`, the last line of a listing.
///
/// # Examples
///
/// ```
/// let tally = ListTally {
///     sectors: 8,
///     tail: 3,
/// };
/// let line = list_end(tally);
/// assert_eq!(rt; line.as_slice(), b"sectors 8 tail 3\n".as_slice());
/// ```
#[tactic(auto, unfolding(crate::specs::ListText::list_end))]
pub fn list_end(tally: ListTally) -> Line
    ensures line { result ≡ list_end tally }
    ensures some { 0 < length result }
    ensures room { length result ≤ LINE_SIZE }
{
    let mut line = Line::new();
    line.push_text(b"sectors ");
    line.push_number(tally.sectors);
    line.push_text(b" tail ");
    line.push_number(u32::from(tally.tail));
    line.push_text(b"\n");
    line
}

/// Writes the last line of a listing.
fn send_end<O: Sink>(tally: ListTally, out: &mut O) -> Result<(), SinkFailed>
    requires { CanCountFailure (O.seen out.old).failures }
    ensures { Sends (O.seen out.old) (O.seen out.new) (list_end tally) result }
{
    write_all(out, list_end(tally).as_slice())
}

/// Writes the line of the last run, if there is one.
fn send_last<O: Sink>(run: Option<OpenRun>, out: &mut O) -> Result<(), SinkFailed>
    requires countable { CanCountFailure (O.seen out.old).failures }
    requires ordered { IfSome run (λ run. run.first ≤ run.last) }
    ensures { Sends (O.seen out.old) (O.seen out.new)
        (last_line (open_first run 0) (runs (open_kinds run))) result }
{
    match run {
        Some(run) => send_run(run, out),
        None => Ok(()),
    }
}

/// Lists an image whose first block is `base`.
#[derive(Drop)]
struct Lister {
    base: u32,
    run: Option<OpenRun>,
}

impl Visitor for Lister {
    ghost use Rattle.std.specs.Prelude.{◌+◌, ◌≤◌};
    ghost use Rattle.cd_report.specs.OpenRun.{EndsBefore};
    ghost use Rattle.cd_report.specs.Scanning.{list_remaining};
    ghost use Rattle.cd_report.specs.declared.TheConstants.{MAX_BASE};

    type Tally = ListTally;

    ghost remaining = { λ s count. list_remaining s.base s.run count };

    ghost has_visited = { λ s count. (s.base ≤ MAX_BASE) × EndsBefore s.run (s.base + count) };

    fn visit<O: Sink>(
        &mut self,
        count: u32,
        sector: &Sector,
        out: &mut O,
    ) -> Result<(), SinkFailed> {
        extend_run(&mut self.run, self.base + count, kind(sector), out)
    }

    fn close<O: Sink>(
        &mut self,
        count: u32,
        tail: u16,
        out: &mut O,
    ) -> Result<ListTally, SinkFailed> {
        let tally = ListTally {
            sectors: count,
            tail,
        };
        send_last(self.run, out)?;
        send_end(tally, out)?;
        out.finish()?;
        Ok(tally)
    }
}

/// Writes a line for each maximal run of neighbouring sectors of the same kind, and a last line
/// with the numbers of sectors and of bytes after the last sector.
///
/// `base` is the number of the first block. One sector is held at a time, and no memory is
/// allocated.
///
/// # Errors
///
/// `Read` if the image fails, `Write` if `out` fails, `TooLong` if a byte is read after the
/// millionth sector.
///
/// # Examples
///
/// ```
/// let mut space = [0; 64];
/// let mut out = SliceSink::new(&mut space);
/// let tally = list(&mut ZeroSource::new(2352 + 3), 0, &mut out)?; // a sector, and a tail
/// assert_eq!(rt; (tally.sectors, tally.tail), (1, 3));
/// assert_eq!(rt; out.written(), b"0-0 nosync\nsectors 1 tail 3\n".as_slice());
/// ```
pub fn list<I: Source, O: Sink>(image: &mut I, base: u32, out: &mut O) -> Result<ListTally, Fault>
    requires base { base ≤ base_limit }
    requires image_countable { CanCountFailure (I.seen image.old).failures }
    requires out_countable { CanCountFailure (O.seen out.old).failures }

    // The complete result, including what is left after an error.
    ensures report { Reports (list_report base)
        (I.seen image.old) (I.seen image.new) (O.seen out.old) (O.seen out.new) result }

    // The text if nothing failed, and when each error occurs.
    ensures text { IfOk result (WritesText (list_report base)
        (I.seen image.old) (I.seen image.new) (O.seen out.old) (O.seen out.new)) }
    ensures ends_well { OnOk result (EndsWell
        (I.seen image.old) (I.seen image.new) (O.seen out.old) (O.seen out.new)) }
    ensures flushes { CountsFlush (O.seen out.old).flushes (O.seen out.new).flushes result }
    ensures read_failed { (result ≡ Err Fault.Read)
        ↔ ((I.seen image.new).failures ≡ (I.seen image.old).failures + 1) }
    ensures write_failed { (result ≡ Err Fault.Write)
        ↔ ((O.seen out.new).failures ≡ (O.seen out.old).failures + 1) }
    ensures too_long { AnswersTooLong (I.seen image.old) (I.seen image.new) result }
    ensures by_length { (I.seen image.new).failures ≡ (I.seen image.old).failures
        → (O.seen out.new).failures ≡ (O.seen out.old).failures
        → AnswersByLength (I.seen image.old) result }
    ensures ended { OnOk result ((I.seen image.new).ended ≡ true) }
    ensures by_end { (I.seen image.new).failures ≡ (I.seen image.old).failures
        → (O.seen out.new).failures ≡ (O.seen out.old).failures
        → AnswersByEnd (I.seen image.new) result }
{
    scan(image, &mut Lister { base, run: None }, out)
}
