// What is told of a handler.
ghost use Rattle.std.specs.Prelude.{◌≡◌};
ghost use Rattle.tool_frame.specs.Answers.{EndsOrWants, Follows, status_in};
ghost use Rattle.tool_work.specs.Bench.{empty_bench};
ghost use Rattle.tool_words.specs.Lint.{view_lint};
ghost use Rattle.tool_work.specs.Lint.{handler_of, lint_due, lint_plan, status_of};

use crate::image_file::ImageFile;
use crate::stack_region::region_of;
use board_outside::{Shelf, Sink};
use chain_flow::Verdict;
use chain_lint::{lint, verdict_line};
use hart_memory::Image;
use hart_words::even;
use std::alloc::Global;
use tool_frame::{Status, ended, read_file};
use tool_words::LintOrder;

// How many addresses a handler may have.
const ADDRESSES: u64 = 1 << 16;

// The handler's address.
fn handler_of(number: u64) -> u32
    ensures { result ≡ handler_of number }
{
    even((number % ADDRESSES) as u32)
}

fn status_of(verdict: Verdict) -> Status
    ensures { result ≡ status_of verdict }
{
    match verdict {
        Verdict::Yes { .. } => Status::Done,
        Verdict::No { .. } => Status::Rejected,
    }
}

// Writes the verdict on the handler.
fn write_verdict<W: Sink>(
    alloc: Global,
    order: &LintOrder<'_>,
    image: &Image,
    out: &mut W,
) -> Status
    ensures { EndsOrWants result (W.told out.old) (W.told out.new) (lint_due (view_lint order.now) image.now) }
{
    let region = region_of(order.low, order.high);
    match lint(alloc, image, handler_of(order.handler), region) {
        Ok(verdict) => ended(out.put(verdict_line(verdict).bytes()), status_of(verdict)),
        Err(_) => Status::Memory,
    }
}

/// Reads the image and writes the verdict on the handler.
pub fn lint_file<F: Shelf, W: Sink>(
    alloc: Global,
    order: &LintOrder<'_>,
    shelf: &mut F,
    out: &mut W,
) -> Result<Status, Status>
    ensures { Follows empty_bench (status_in result) (lint_plan (view_lint order.now)) (F.told shelf.old) (F.told shelf.new) (W.told out.old) (W.told out.new) }
{
    let image = read_file(alloc, &ImageFile, order.image, shelf, out)?;
    Ok(write_verdict(alloc, order, &image, out))
}
