//! Tests with a host in memory: the requests to it, their order, and the output if it has no file or finds no memory.

ghost use Rattle.cd_host.specs.Hosting.{any_answers};

use super::commands::{ALL, expect_ended};
use super::holds;
use super::messages::{APPLIED, COUNTED_WRITE_FAILED, NO_IMAGE, NO_MEMORY, NO_OUTPUT, NO_SCRIPT};
use super::streams::Unflushed;
use crate::tests::images::Sample::Zeros;
use crate::tests::images::image_of;
use cd_image::{SliceSink, SliceSource, ToWrite};
use cd_program::{Host, OpenFault, run_args};
use std::alloc::{AllocError, Global};
use std::process::Abort;

/// The arguments of a line.
fn args_of(alloc: Global, line: &str) -> Result<Vec<String>, AllocError> {
    let mut args = Vec::new(alloc);
    for word in line.split_whitespace() {
        args.push(String::from_str(alloc, word)?)?;
    }
    Ok(args)
}

/// A host that has an image and a script, creates a file that cannot pass its bytes on, and records the requests. The request with the
/// number `failing` finds no memory.
#[derive(Drop)]
struct Memory<'a> {
    image: &'a [u8],
    asked: String,
    count: u32,
    failing: u32,
}

impl<'a> Memory<'a> {
    fn ask(&mut self, question: &str, path: &str) -> Result<(), OpenFault> {
        let written = self.asked.push_str(question).is_ok() && self.asked.push_str(path).is_ok();
        self.count = self.count.saturating_add(1);
        if !written || self.count == self.failing {
            return Err(OpenFault::NoMemory);
        }
        Ok(())
    }
}

impl<'a> Host for Memory<'a> {
    type Input = SliceSource<'a>;

    type Output = ToWrite<Unflushed>;

    ghost hosting = { any_answers };

    fn input_at(&mut self, path: &str) -> Result<SliceSource<'a>, OpenFault> {
        self.ask(" read ", path)?;
        match path {
            "image" => Ok(SliceSource::new(self.image)),
            "script" => Ok(SliceSource::new(b"cdpatch 1\nset 1 0 41\n")),
            _ => Err(OpenFault::Refused),
        }
    }

    fn standard_input(&mut self) -> Result<SliceSource<'a>, OpenFault> {
        self.ask(" take", "")?;
        Ok(SliceSource::new(self.image))
    }

    fn output_at(&mut self, path: &str) -> Result<ToWrite<Unflushed>, OpenFault> {
        self.ask(" make ", path)?;
        if path != "out" {
            return Err(OpenFault::Refused);
        }
        Ok(ToWrite::new(Unflushed))
    }

    fn take_back(&mut self, path: &str, _: ToWrite<Unflushed>) {
        let _ = self.ask(" take back ", path);
    }
}

/// Arguments, the number of the request that finds no memory, the requests, the status, and the output.
type Asking = (&'static str, u32, &'static str, u8, &'static str);

const ASKED: &[Asking] = &[
    (
        "list image",
        0,
        " read image",
        0,
        "0-1 mode1\nsectors 2 tail 0\n",
    ),
    ("check - script", 0, " read script take", 0, APPLIED),
    (
        "apply image script out",
        0,
        " read script read image make out take back out",
        2,
        COUNTED_WRITE_FAILED,
    ),
    ("apply image none out", 0, " read none", 2, NO_SCRIPT),
    (
        "apply none script out",
        0,
        " read script read none",
        2,
        NO_IMAGE,
    ),
    (
        "apply image script -",
        0,
        " read script read image make -",
        2,
        NO_OUTPUT,
    ),
    ("", 1, " take", 2, NO_MEMORY),
    ("apply image script out", 1, " read script", 2, NO_MEMORY),
    (
        "apply image script out",
        2,
        " read script read image",
        2,
        NO_MEMORY,
    ),
    (
        "apply image script out",
        3,
        " read script read image make out",
        2,
        NO_MEMORY,
    ),
];

/// Asserts the requests of a line to the host.
fn expect_asked(rt: &impl Abort, came: &str, due: &str, line: &str) {
    holds(rt, came == due, line);
}

/// Runs the program with the arguments of a row, on a host that has this image.
fn expect_row(
    rt: &impl Abort,
    alloc: Global,
    image: &[u8],
    row: &Asking,
) -> Result<(), AllocError> {
    let (args, failing, asked, status, text) = *row;
    let words = args_of(alloc, args)?;
    let mut host = Memory {
        image,
        asked: String::new(alloc),
        count: 0,
        failing,
    };
    let mut space = [0; 128];
    let mut out = SliceSink::new(&mut space);
    let came = run_args(alloc, &mut host, words, &mut out);
    expect_asked(rt, host.asked.as_str(), asked, args);
    expect_ended(rt, (came, out.written()), (status, text), ALL);
    Ok(())
}

#[test]
fn questions_in_order(rt: HostRuntime) -> Result<(), AllocError> {
    let image = image_of(rt.alloc(), &[Zeros(0), Zeros(1)])?;
    for row in ASKED {
        expect_row(&rt, rt.alloc(), &image, row)?;
    }
    Ok(())
}
