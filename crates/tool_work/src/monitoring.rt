// A script on the shipped board.
ghost use Rattle.std.specs.Prelude.{◌≡◌, true, OnOk, IfOk, IfErr};
ghost use Rattle.board_outside.specs.Sink.{Writes};
ghost use Rattle.clic_regs.specs.Shape.{plain_shape};
ghost use Rattle.hart_monitor.specs.Faults.{WritesFront};
ghost use Rattle.tool_frame.specs.Answers.{EndsOrWants, Follows, status_in};
ghost use Rattle.tool_work.specs.Bench.{empty_bench};
ghost use Rattle.tool_words.specs.Monitor.{view_monitor};
ghost use Rattle.tool_work.specs.Monitor.{monitored_board, monitored_text, monitor_due, monitor_plan};

use crate::image_file::ImageFile;
use crate::running::new_board;
use crate::script_file::ScriptFile;
use board_devices::AllDevices;
use board_inputs::load_image;
use board_outside::{Shelf, Sink};
use clic_regs::Shape;
use hart_board::Board;
use hart_memory::Image;
use hart_monitor::laws::new_boards_are_plain;
use hart_monitor::{MonitorFault, Script, monitor};
use hart_words::WantOfMemory;
use std::alloc::Global;
use tool_frame::{Status, read_file};
use tool_words::MonitorOrder;

// The board that the script is for.
fn monitored_board(alloc: Global, image: &Image) -> Result<Board<AllDevices>, WantOfMemory>
    ensures board { IfOk result (λ board. board ≡ monitored_board image.now) }
    ensures plain { IfOk result (λ board. board.outside.clic.shape ≡ plain_shape) }
{
    new_boards_are_plain::<AllDevices>();
    let mut board = new_board(alloc, Shape::plain())?;
    load_image(image, &mut board);
    Ok(board)
}

// Does the script on the image's board.
#[tactic(auto, unfolding(crate::specs::Shipped::shipped_meanings, crate::specs::Monitor::monitored_text))]
fn do_script<W: Sink>(
    alloc: Global,
    image: &Image,
    script: &Script,
    board: &mut Board<AllDevices>,
    out: &mut W,
) -> Result<(), MonitorFault>
    requires board { board.old ≡ monitored_board image.now }
    requires plain { board.old.outside.clic.shape ≡ plain_shape }
    ensures text { OnOk result (Writes true (W.told out.old) (W.told out.new) (monitored_text image.now script.now)) }
    ensures front { IfErr result (λ fault. WritesFront fault (W.told out.old) (W.told out.new) (monitored_text image.now script.now)) }
{
    monitor(alloc, board, script, out)
}

// Does the script on a board of its own with the image.
fn monitor_image<W: Sink>(alloc: Global, image: &Image, script: &Script, out: &mut W) -> Status
    ensures { EndsOrWants result (W.told out.old) (W.told out.new) (monitor_due image.now script.now) }
{
    let mut board = match monitored_board(alloc, image) {
        Ok(board) => board,
        Err(_) => return Status::Memory,
    };
    match do_script(alloc, image, script, &mut board, out) {
        Ok(()) => Status::Done,
        Err(MonitorFault::SinkFailed) => Status::SinkFailed,
        Err(MonitorFault::Memory) => Status::Memory,
    }
}

/// Reads the image and then the script, and does its commands.
pub fn monitor_files<F: Shelf, W: Sink>(
    alloc: Global,
    order: &MonitorOrder<'_>,
    shelf: &mut F,
    out: &mut W,
) -> Result<Status, Status>
    ensures { Follows empty_bench (status_in result) (monitor_plan (view_monitor order.now)) (F.told shelf.old) (F.told shelf.new) (W.told out.old) (W.told out.new) }
{
    let image = read_file(alloc, &ImageFile, order.image, shelf, out)?;
    let script = read_file(alloc, &ScriptFile, order.script, shelf, out)?;
    Ok(monitor_image(alloc, &image, &script, out))
}
