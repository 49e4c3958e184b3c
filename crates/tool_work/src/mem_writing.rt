// What is written of an image as memory text.
ghost use Rattle.tool_frame.specs.Answers.{EndsOrWants, Follows, status_in};
ghost use Rattle.tool_work.specs.Bench.{empty_bench};
ghost use Rattle.tool_words.specs.Mem.{view_mem};
ghost use Rattle.tool_work.specs.Mem.{mem_due, mem_plan};

use crate::image_file::ImageFile;
use board_outside::{Shelf, Sink};
use hart_memory::Image;
use mem_text::write_mem;
use std::alloc::Global;
use tool_frame::{Status, ended, read_file};
use tool_words::MemOrder;

// Writes the memory text of an image.
fn write_text<W: Sink>(alloc: Global, image: &Image, out: &mut W) -> Status
    ensures { EndsOrWants result (W.told out.old) (W.told out.new) (mem_due image.now) }
{
    match write_mem(alloc, image) {
        Ok(text) => ended(out.put(text.bytes()), Status::Done),
        Err(_) => Status::Memory,
    }
}

/// Reads the image and writes its memory text.
pub fn mem_file<F: Shelf, W: Sink>(
    alloc: Global,
    order: &MemOrder<'_>,
    shelf: &mut F,
    out: &mut W,
) -> Result<Status, Status>
    ensures { Follows empty_bench (status_in result) (mem_plan (view_mem order.now)) (F.told shelf.old) (F.told shelf.new) (W.told out.old) (W.told out.new) }
{
    let image = read_file(alloc, &ImageFile, order.image, shelf, out)?;
    Ok(write_text(alloc, &image, out))
}
