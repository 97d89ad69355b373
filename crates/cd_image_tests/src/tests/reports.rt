//! Listings and audits of whole images, and of images and sinks that fail at each byte.

use super::calls::{
    ALL, Answer, Got, Limits, Report, Reported, by_parts, expect_reported, passing, report_within,
};
use super::cases::PARTS;
use super::images::Sample::{self, Blank, Damaged, Mode, Zeros};
use super::images::{Written, cut_image, flipped, image_of, sector_of};
use cd_image::Fault;
use cd_report::MAX_BASE;
use std::alloc::AllocError;
use std::process::Abort;

/// The first block of an image, its report, and the number of bytes of the report that are out after a number of bytes of the image, until
/// all are.
#[derive(Clone, Copy)]
struct Due<'a>(u32, &'a str, &'a [(usize, usize)]);

/// A report on an image.
#[derive(Clone, Copy)]
struct Case<'a> {
    call: Report,
    image: &'a [u8],
    due: Due<'a>,
}

impl Case<'_> {
    /// The number of bytes of the report that are out after a number of bytes of the image.
    fn sent(&self, read: usize) -> usize {
        let Due(_, text, begun) = self.due;
        if self.image.len() < read {
            return text.len();
        }
        let last = begun.iter().filter(|(least, _)| *least <= read).last();
        last.map_or(0, |(_, sent)| *sent)
    }

    /// Asserts that the report ends with this fault, or without one, after a number of bytes.
    fn expect(&self, rt: &impl Abort, limits: &Limits, fault: Option<Fault>, sent: usize) {
        let Due(base, text, _) = self.due;
        assert!(rt; base <= MAX_BASE);
        let came = report_within(self.call, self.image, base, limits, text);
        let due = Reported {
            answer: fault.map_or(came.answer, Answer::Failed),
            out: Got {
                failures: u32::from(fault == Some(Fault::Write)),
                finished: fault.is_none(),
                bytes: Written::right(sent),
            },
        };
        expect_reported(rt, &came, &due, sent, text);
    }

    /// With any number of bytes per call, and with few. Then each byte of the image in turn is the first that cannot be read, and each byte
    /// of the report the first that cannot be written.
    fn expect_each(&self, rt: &impl Abort) {
        let Due(_, text, _) = self.due;
        let (size, length) = (self.image.len(), text.len());
        for most in PARTS {
            self.expect(rt, &by_parts(*most, *most, *most), None, length);
        }
        for count in 0..size.saturating_add(2) {
            let fault = (count <= size).then_some(Fault::Read);
            self.expect(
                rt,
                &passing(count as u64, ALL, ALL),
                fault,
                self.sent(count),
            );
        }
        for count in 0..length.saturating_add(2) {
            let fault = (count <= length).then_some(Fault::Write);
            self.expect(
                rt,
                &passing(ALL, count as u64, ALL),
                fault,
                count.min(length),
            );
        }
    }
}

fn reports_as(rt: &impl Abort, call: Report, image: &[u8], due: Due) {
    let case = Case { call, image, due };
    case.expect_each(rt);
}

/// Asserts the listing of an image.
fn lists_as(rt: &impl Abort, image: &[u8], due: Due) {
    reports_as(rt, Report::List, image, due);
}

/// Asserts the audit of an image from block 0 on.
pub fn audits_as(rt: &impl Abort, image: &[u8], text: &str) {
    let case = Case {
        call: Report::Audit,
        image,
        due: Due(0, text, &[]),
    };
    case.expect(rt, &passing(ALL, ALL, ALL), None, text.len());
}

const RUNS: Due = Due(
    0,
    "0-0 mode1\n1-2 mode2\n3-3 nosync\nsectors 4 tail 0\n",
    &[(4704, 10), (9408, 20)],
);

const LISTS: &[(&[Sample], Due)] = &[
    (&[], Due(0, "sectors 0 tail 0\n", &[])),
    (&[Zeros(0), Mode(2), Mode(2), Blank], RUNS),
    (&[Mode(1), Mode(2), Mode(2), Blank], RUNS),
    (&[Mode(1)], Due(7, "7-7 mode1\nsectors 1 tail 0\n", &[])),
];

/// An image that is cut to 11,759 bytes.
const CUT: &[Sample] = &[Mode(0), Mode(3), Mode(1), Mode(1), Blank];

const OF_CUT: Due = Due(
    0,
    "0-0 mode0\n1-1 other\n2-3 mode1\nsectors 4 tail 2351\n",
    &[(4704, 10), (7056, 20)],
);

const NO_SYNC: Due = Due(0, "0-0 nosync\nsectors 1 tail 0\n", &[]);

const ONE_VALUE: Due = Due(0, "0-1 nosync\nsectors 2 tail 1\n", &[]);

#[test]
fn listings(rt: HostRuntime) -> Result<(), AllocError> {
    for (samples, due) in LISTS {
        lists_as(&rt, &image_of(rt.alloc(), samples)?, *due);
    }
    lists_as(&rt, &cut_image(rt.alloc(), CUT, 11_759)?, OF_CUT);
    lists_as(&rt, flipped(&sector_of(&Mode(1)), 11).bytes(), NO_SYNC);
    lists_as(&rt, &[0x41; 4705], ONE_VALUE);
    Ok(())
}

const AUDITS: &[(&[Sample], Due)] = &[
    (
        &[Damaged(0, 2351, 1)],
        Due(
            0,
            "0 q=1\nsectors 1 mode1 1 damaged 1 tail 0\n",
            &[(2352, 6)],
        ),
    ),
    (
        &[Damaged(0, 2068, 1)],
        Due(
            0,
            "0 zeros p=1 q=1\nsectors 1 mode1 1 damaged 1 tail 0\n",
            &[(2352, 16)],
        ),
    ),
    (
        &[Damaged(0, 2062, 1)],
        Due(
            0,
            "0 edc p=1 q=1\nsectors 1 mode1 1 damaged 1 tail 0\n",
            &[(2352, 14)],
        ),
    ),
    (
        &[Zeros(1)],
        Due(
            0,
            "0 address\nsectors 1 mode1 1 damaged 0 tail 0\n",
            &[(2352, 10)],
        ),
    ),
    (
        &[Zeros(1)],
        Due(1, "sectors 1 mode1 1 damaged 0 tail 0\n", &[]),
    ),
    (
        &[Zeros(449_849), Zeros(0)],
        Due(449_849, "sectors 2 mode1 2 damaged 0 tail 0\n", &[]),
    ),
];

#[test]
fn audits(rt: HostRuntime) -> Result<(), AllocError> {
    for (samples, due) in AUDITS {
        let image = image_of(rt.alloc(), samples)?;
        reports_as(&rt, Report::Audit, &image, *due);
    }
    Ok(())
}
