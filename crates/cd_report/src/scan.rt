//! One pass over an image, sector by sector: the loop of `list` and `audit`.

ghost use Rattle.std.specs.Prelude.{◌≡◌, ◌+◌, ◌<◌, [], IfOk, OnOk};
ghost use Rattle.cd_report.specs.Report.{Reports};
ghost use Rattle.cd_report.specs.Scanning.{Finishes, Visits, spec_of};
ghost use Rattle.cd_stream.specs.Transfer.{Counts, CountsFlush};
ghost use Rattle.cd_stream.specs.Stream.{CanCountFailure};
ghost use Rattle.cd_sector.specs.Image.{sector_limit};

use cd_read::{Fault, read_sector};
use cd_sector::Sector;
use cd_stream::{Sink, SinkFailed, Source};

/// A report that is written while the sectors of an image are read.
pub(crate) trait Visitor {
    ghost use Rattle.std.specs.Prelude.{ℕ};
    ghost use Rattle.cd_report.specs.Scanning.{Remaining};

    type Tally;

    // The part of the report that is still to be written after `count` sectors.
    ghost remaining: { Self → ℕ → Remaining Self.Tally };

    // This number of sectors was visited.
    ghost has_visited: { Self → ℕ → Type 0 };

    /// Visits the next sector, after `count` others, and writes the line that is now due, if there
    /// is one.
    fn visit<O: Sink>(&mut self, count: u32, sector: &Sector, out: &mut O) -> Result<(), SinkFailed>
        requires countable { CanCountFailure (O.seen out.old).failures }
        requires at { has_visited self.old count }
        requires room { count < sector_limit }
        ensures takes { Visits (remaining self.old count) (remaining self.new (count + 1))
            sector.now (O.seen out.old) (O.seen out.new) result }
        ensures at { OnOk result (has_visited self.new (count + 1)) }
        ensures flushes { (O.seen out.new).flushes ≡ (O.seen out.old).flushes }
        ensures count { Counts (O.seen out.old).failures (O.seen out.new).failures result };

    /// Writes the rest of the report after `count` sectors and a tail, and flushes `out`.
    fn close<O: Sink>(
        &mut self,
        count: u32,
        tail: u16,
        out: &mut O,
    ) -> Result<Self::Tally, SinkFailed>
        requires countable { CanCountFailure (O.seen out.old).failures }
        requires at { has_visited self.old count }
        ensures text { Finishes ((remaining self.old count).end [] tail)
            (O.seen out.old) (O.seen out.new) result }
        ensures tally { IfOk result
            (λ reported. reported ≡ (remaining self.old count).tally [] tail) }
        ensures flushes { CountsFlush (O.seen out.old).flushes (O.seen out.new).flushes result }
        ensures count { Counts (O.seen out.old).failures (O.seen out.new).failures result };
}

/// Reads an image to its end, and writes its report to `out`.
pub(crate) fn scan<I: Source, T: Visitor, O: Sink>(
    image: &mut I,
    visitor: &mut T,
    out: &mut O,
) -> Result<T::Tally, Fault>
    requires image_countable { CanCountFailure (I.seen image.old).failures }
    requires out_countable { CanCountFailure (O.seen out.old).failures }
    requires start { T.has_visited visitor.old 0 }
    requires nothing_due { (T.remaining visitor.old 0).lines [] ≡ [] }
    ensures { Reports (spec_of (T.remaining visitor.old 0))
        (I.seen image.old) (I.seen image.new) (O.seen out.old) (O.seen out.new) result }
{
    let mut sector = Sector::default();
    let mut count = 0;
    loop {
        match read_sector(image, count, &mut sector)? {
            None => visitor.visit(count, &sector, out)?,
            Some(length) => return Ok(visitor.close(count, length as u16, out)?),
        }
        count += 1;
    }
}
