// A run on the shipped board.
ghost use Rattle.std.specs.Prelude.{◌≡◌, IfOk, IsTrue};
ghost use Rattle.board_outside.specs.Sink.{Writes};
ghost use Rattle.hart_board.specs.Run.{every_step, run_of, is_whole};
ghost use Rattle.hart_board.specs.Text.{run_text};
ghost use Rattle.tool_work.specs.Shipped.{shipped_meanings, shipped_board};
ghost use Rattle.tool_words.specs.Run.{view_run};
ghost use Rattle.tool_work.specs.Run.{run_due, run_plan, status_of};
ghost use Rattle.tool_work.specs.Bench.{empty_bench};
ghost use Rattle.tool_frame.specs.Answers.{EndsOrWants, Follows, status_in};

use crate::image_file::ImageFile;
use crate::scenario_file::ScenarioFile;
use board_devices::{AllDevices, shipped};
use board_inputs::load_image;
use board_outside::{Shelf, Sink};
use clic_regs::Shape;
use hart_board::{Board, Events, RunEnd, run};
use hart_memory::Image;
use hart_words::WantOfMemory;
use std::alloc::Global;
use tool_frame::{Status, read_file};
use tool_words::RunOrder;

fn status_of_end(end: &RunEnd) -> Status
    ensures { result ≡ status_of end.now }
{
    match *end {
        RunEnd::Halted { .. } => Status::Done,
        RunEnd::BudgetSpent => Status::BudgetSpent,
        RunEnd::VectorFault { .. } => Status::VectorFault,
        RunEnd::SinkFailed => Status::SinkFailed,
    }
}

// The board with the shipped devices, at reset, with a controller of a shape.
#[tactic(auto, unfolding(crate::specs::Shipped::shipped_board, crate::specs::Shipped::shipped_meanings))]
pub fn new_board(alloc: Global, shape: Shape) -> Result<Board<AllDevices>, WantOfMemory>
    ensures { IfOk result (λ board. board ≡ shipped_board shape) }
{
    let devices = shipped(alloc)?;
    Board::new(alloc, devices, shape)
}

// Runs the board with the shipped devices.
#[tactic(auto, unfolding(crate::specs::Shipped::shipped_meanings))]
#[inline(never)]
fn run_shipped<W: Sink>(
    board: &mut Board<AllDevices>,
    events: &Events,
    bound: u64,
    trace: bool,
    out: &mut W,
) -> RunEnd
    requires { events.now.shape ≡ board.old.outside.clic.shape }
    ensures end { IsTrue (is_whole result) → result ≡ (run_of shipped_meanings every_step events.now.list bound board.old).end }
    ensures text { Writes (is_whole result) (W.told out.old) (W.told out.new) (run_text shipped_meanings trace bound (run_of shipped_meanings every_step events.now.list bound board.old)) }
{
    run(board, events, bound, trace, out)
}

/// Runs the image with the events, as the words say, on a board of its own in their shape.
pub fn run_image<W: Sink>(
    alloc: Global,
    order: &RunOrder<'_>,
    image: &Image,
    events: &Events,
    out: &mut W,
) -> Status
    ensures { EndsOrWants result (W.told out.old) (W.told out.new) (run_due (view_run order.now) image.now events.now) }
{
    let mut board = match new_board(alloc, events.shape()) {
        Ok(board) => board,
        Err(_) => return Status::Memory,
    };
    load_image(image, &mut board);
    let end = run_shipped(&mut board, events, order.bound, order.trace, out);
    status_of_end(&end)
}

/// Reads the image and then the scenario, and runs.
pub fn run_files<F: Shelf, W: Sink>(
    alloc: Global,
    order: &RunOrder<'_>,
    shelf: &mut F,
    out: &mut W,
) -> Result<Status, Status>
    ensures { Follows empty_bench (status_in result) (run_plan (view_run order.now)) (F.told shelf.old) (F.told shelf.new) (W.told out.old) (W.told out.new) }
{
    let image = read_file(alloc, &ImageFile, order.image, shelf, out)?;
    let events = read_file(alloc, &ScenarioFile, order.scenario, shelf, out)?;
    Ok(run_image(alloc, order, &image, &events, out))
}
