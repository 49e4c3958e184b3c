// An image and a scenario on a board with any devices.
ghost use Rattle.std.specs.Prelude.{◌≤◌, length};
ghost use Rattle.device_model.specs.declared.device.TheConstants.{REGION_LEN, MAX_LINES};
ghost use Rattle.tool_frame.specs.Answers.{Follows, status_in};
ghost use Rattle.template_tool.specs.Words.{view};
ghost use Rattle.template_tool.specs.Work.{files_then_work, IsServedTo};

use crate::chaining::chain_board;
use crate::order::Order;
use crate::running::{board_with, run_board};
use board_outside::{Shelf, Sink};
use chain_moves::slot_taken;
use device_model::Device;
use std::alloc::Global;
use tool_frame::{Status, end_refused, read_file};
use tool_work::{ImageFile, ScenarioFile, line_of_slot};

/// Reads the image and then the scenario, and runs them with these devices; under a dispatcher, where the image
/// leaves its place free.
pub fn work_files<D: Device, F: Shelf, W: Sink>(
    alloc: Global,
    devices: D,
    order: &Order<'_>,
    shelf: &mut F,
    out: &mut W,
) -> Result<Status, Status>
    requires place { D.means.high (D.state devices) ≤ REGION_LEN }
    requires lines { length (D.means.lines (D.state devices)) ≤ MAX_LINES }
    ensures follows { Follows tt (status_in result) (files_then_work D.means (D.state devices) (view order.now)) (F.told shelf.old) (F.told shelf.new) (W.told out.old) (W.told out.new) }
    ensures served { IsServedTo D.means (D.state devices) (view order.now) (status_in result) (F.told shelf.old) (F.told shelf.new) }
{
    let image = read_file(alloc, &ImageFile, order.image, shelf, out)?;
    let events = read_file(alloc, &ScenarioFile, order.scenario, shelf, out)?;
    let Ok(mut board) = board_with(alloc, devices, &image, &events) else {
        return Err(Status::Memory);
    };
    let bound = order.bound;
    match order.under {
        None => Ok(run_board(&mut board, &events, bound, out)),
        Some(under) => match slot_taken(&image) {
            Some(at) => Err(end_refused(&line_of_slot(at), out)),
            None => Ok(chain_board(alloc, &mut board, under, &events, bound, out)),
        },
    }
}
