// What is told of the handlers in a table.
ghost use Rattle.std.specs.Prelude.{◌≡◌};
ghost use Rattle.tool_frame.specs.Answers.{EndsOrWants, Follows, status_in};
ghost use Rattle.tool_work.specs.Bench.{empty_bench};
ghost use Rattle.tool_words.specs.Bound.{view_bound};
ghost use Rattle.tool_work.specs.Bound.{bound_due, bound_plan, status_of, table_of};

use crate::image_file::ImageFile;
use crate::stack_region::region_of;
use board_outside::{Shelf, Sink};
use chain_lint::{TableBound, bound_of_table, table_line};
use hart_memory::Image;
use std::alloc::Global;
use tool_frame::{Status, ended, read_file};
use tool_words::BoundOrder;

// How many addresses a table may have.
const ADDRESSES: u64 = 1 << 16;

// A table's address is a multiple of this.
const ALIGNMENT: u32 = 64;

// The table's address.
fn table_of(number: u64) -> u32
    ensures { result ≡ table_of number }
{
    let address = (number % ADDRESSES) as u32;
    address - address % ALIGNMENT
}

fn status_of(answer: TableBound) -> Status
    ensures { result ≡ status_of answer }
{
    match answer {
        TableBound::Bound(_) => Status::Done,
        TableBound::BadTable(_) | TableBound::Refused { .. } => Status::Rejected,
    }
}

// Writes what the handlers in the table come to.
fn write_bound<W: Sink>(alloc: Global, order: &BoundOrder<'_>, image: &Image, out: &mut W) -> Status
    ensures { EndsOrWants result (W.told out.old) (W.told out.new) (bound_due (view_bound order.now) image.now) }
{
    let region = region_of(order.low, order.high);
    let table = table_of(order.table);
    match bound_of_table(alloc, image, region, table, order.pairs.as_slice()) {
        Ok(answer) => ended(out.put(table_line(answer).bytes()), status_of(answer)),
        Err(_) => Status::Memory,
    }
}

/// Reads the image and writes what the handlers in the table come to.
pub fn bound_file<F: Shelf, W: Sink>(
    alloc: Global,
    order: &BoundOrder<'_>,
    shelf: &mut F,
    out: &mut W,
) -> Result<Status, Status>
    ensures { Follows empty_bench (status_in result) (bound_plan (view_bound order.now)) (F.told shelf.old) (F.told shelf.new) (W.told out.old) (W.told out.new) }
{
    let image = read_file(alloc, &ImageFile, order.image, shelf, out)?;
    Ok(write_bound(alloc, order, &image, out))
}
