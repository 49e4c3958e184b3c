// What is written of a memory text.
ghost use Rattle.tool_frame.specs.Answers.{Follows, status_in};
ghost use Rattle.tool_work.specs.Bench.{empty_bench};
ghost use Rattle.tool_words.specs.Unmem.{view_unmem};
ghost use Rattle.tool_work.specs.Unmem.{unmem_plan};

use crate::image_file::put_image;
use crate::memory_file::MemoryFile;
use board_outside::{Shelf, Sink};
use std::alloc::Global;
use tool_frame::{Status, read_file};
use tool_words::UnmemOrder;

/// Reads the memory text and writes its image.
pub fn unmem_file<F: Shelf, W: Sink>(
    alloc: Global,
    order: &UnmemOrder<'_>,
    shelf: &mut F,
    out: &mut W,
) -> Result<Status, Status>
    ensures { Follows empty_bench (status_in result) (unmem_plan (view_unmem order.now)) (F.told shelf.old) (F.told shelf.new) (W.told out.old) (W.told out.new) }
{
    let kind = MemoryFile { entry: order.entry };
    let image = read_file(alloc, &kind, order.memory, shelf, out)?;
    Ok(put_image(alloc, &image, out))
}
