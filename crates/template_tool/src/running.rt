// A run of a board with any devices.
ghost use Rattle.std.specs.Prelude.{◌≡◌, ◌≤◌, length, IfOk};
ghost use Rattle.device_model.specs.declared.device.TheConstants.{REGION_LEN, MAX_LINES};
ghost use Rattle.tool_frame.specs.Answers.{Ends};
ghost use Rattle.template_tool.specs.Work.{board_on, run_due};

use board_inputs::load_image;
use board_outside::Sink;
use device_model::Device;
use hart_board::{Board, Events, RunEnd, run};
use hart_memory::Image;
use hart_words::WantOfMemory;
use std::alloc::Global;
use tool_frame::Status;

/// The board with these devices, at reset, in the shape of the events and with the image.
#[tactic(auto, unfolding(crate::specs::Work::board_on))]
pub fn board_with<D: Device>(
    alloc: Global,
    devices: D,
    image: &Image,
    events: &Events,
) -> Result<Board<D>, WantOfMemory>
    requires place { D.means.high (D.state devices) ≤ REGION_LEN }
    requires lines { length (D.means.lines (D.state devices)) ≤ MAX_LINES }
    ensures board { IfOk result (λ board. board ≡ board_on D.means (D.state devices) image.now events.now) }
    ensures shape { IfOk result (λ board. events.now.shape ≡ board.outside.clic.shape) }
    ensures level { IfOk result (λ board. board.csrs.mil ≡ 0) }
{
    let mut board = Board::new(alloc, devices, events.shape())?;
    load_image(image, &mut board);
    Ok(board)
}

/// Runs the board with the events, at most so many steps.
pub fn run_board<D: Device, W: Sink>(
    board: &mut Board<D>,
    events: &Events,
    bound: u64,
    out: &mut W,
) -> Status
    requires shape { events.now.shape ≡ board.old.outside.clic.shape }
    ensures { Ends result (W.told out.old) (W.told out.new) (run_due D.means events.now bound board.old) }
{
    match run(board, events, bound, false, out) {
        RunEnd::Halted { .. } => Status::Done,
        RunEnd::BudgetSpent => Status::BudgetSpent,
        RunEnd::VectorFault { .. } => Status::VectorFault,
        RunEnd::SinkFailed => Status::SinkFailed,
    }
}
