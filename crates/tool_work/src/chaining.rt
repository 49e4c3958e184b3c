// A chain on the shipped board.
ghost use Rattle.std.specs.Prelude.{◌≡◌, IfOk, Some, None, if◌then◌else◌};
ghost use Rattle.chain_moves.specs.Words.{HasDispatcher};
ghost use Rattle.chain_core.specs.Chain.{is_whole};
ghost use Rattle.tool_work.specs.Bench.{Bench, empty_bench};
ghost use Rattle.tool_work.specs.Served.{IsServedTo};
ghost use Rattle.tool_work.specs.Checked.{IsCheckedBy};
ghost use Rattle.tool_work.specs.Chain.{IsChainServed, DoAgree, slot_line, status_of, chain_board, chain_due, chain_left, chain_plan};
ghost use Rattle.tool_words.specs.Chain.{view_chain};
ghost use Rattle.tool_frame.specs.Code.{OfCommand, origin_of};
ghost use Rattle.tool_frame.specs.Due.{worked};
ghost use Rattle.tool_frame.specs.Answers.{EndsOrWants, Leaves, FollowsWith, status_in};

use crate::agreeing::chains_agree;
use crate::bench::Bench;
use crate::chain_running::run_chain;
use crate::checking::answers_hold;
use crate::image_file::ImageFile;
use crate::running::new_board;
use crate::scenario_file::ScenarioFile;
use board_devices::AllDevices;
use board_inputs::load_image;
use board_outside::{Shelf, Sink};
use chain_core::ChainEnd;
use chain_moves::{Dispatcher, install, slot_taken};
use hart_board::{Board, Events};
use hart_memory::Image;
use hart_words::{Line, WantOfMemory};
use std::alloc::Global;
use tool_frame::{Status, end_refused, read_file};
use tool_words::ChainOrder;

/// The status of a chain that ended so.
pub fn status_of_end(end: &ChainEnd) -> Status
    ensures { result ≡ status_of end.now }
{
    match *end {
        ChainEnd::Done { .. } => Status::Done,
        ChainEnd::BudgetSpent => Status::BudgetSpent,
        ChainEnd::Broken { .. } => Status::Broken,
        ChainEnd::SinkFailed => Status::SinkFailed,
    }
}

// Whether all of its text was written.
fn is_whole(end: &ChainEnd) -> bool
    ensures { result ≡ is_whole end.now }
{
    match *end {
        ChainEnd::Done { .. } | ChainEnd::BudgetSpent | ChainEnd::Broken { .. } => true,
        ChainEnd::SinkFailed => false,
    }
}

/// The line of an image that covers the slot, whose least address that is covered is this one.
#[tactic(auto, unfolding(crate::specs::Chain::slot_line))]
pub fn line_of_slot(at: u32) -> Line
    ensures { result ≡ slot_line at }
{
    let mut line = Line::new();
    line.put_text("refused image SlotTaken ");
    line.put_hex8(at);
    line.put_text("\n");
    line
}

/// The board from which a chain starts.
pub fn board_with(
    alloc: Global,
    dispatcher: Dispatcher,
    image: &Image,
    events: &Events,
) -> Result<Board<AllDevices>, WantOfMemory>
    ensures board { IfOk result (λ board. board ≡ chain_board dispatcher image.now events.now) }
    ensures shape { IfOk result (λ board. events.now.shape ≡ board.outside.clic.shape) }
    ensures has { IfOk result (λ board. HasDispatcher dispatcher board.memory.rom) }
{
    let mut board = new_board(alloc, events.shape())?;
    load_image(image, &mut board);
    install(&mut board, dispatcher);
    Ok(board)
}

// Where all was written, the board goes to the bench.
fn leave(end: &ChainEnd, board: Board<AllDevices>, bench: &mut Bench)
    requires empty { bench.old ≡ empty_bench }
    ensures { bench.new ≡ (if is_whole end.now then record { first = Some board; second = None } else empty_bench) }
{
    if is_whole(end) {
        bench.first = Some(board);
    }
}

/// Runs the image with the events under the dispatcher, as the words say, on a board of its own in their
/// shape. Where all was written, the board goes to the bench.
pub fn chain_image<W: Sink>(
    alloc: Global,
    order: &ChainOrder<'_>,
    image: &Image,
    events: &Events,
    bench: &mut Bench,
    out: &mut W,
) -> Status
    requires empty { bench.old ≡ empty_bench }
    ensures ends { EndsOrWants result (W.told out.old) (W.told out.new) (chain_due (view_chain order.now) image.now events.now) }
    ensures leaves { Leaves empty_bench result (worked (chain_due (view_chain order.now) image.now events.now) (chain_left (view_chain order.now) image.now events.now)) bench.new }
    ensures served { origin_of result ≡ OfCommand → IsChainServed (view_chain order.now) image.now events.now }
    ensures agree { origin_of result ≡ OfCommand → DoAgree order.now.direct image.now events.now }
    ensures checked { origin_of result ≡ OfCommand → IsCheckedBy order.now.direct order.now.dispatcher image.now events.now }
{
    let mut board = match board_with(alloc, order.dispatcher, image, events) {
        Ok(board) => board,
        Err(_) => return Status::Memory,
    };
    chains_agree(&board, order.dispatcher, events);
    answers_hold(&board, order.dispatcher, events);
    match run_chain(alloc, order, &mut board, events, out) {
        Ok(end) => {
            leave(&end, board, bench);
            status_of_end(&end)
        }
        Err(_) => Status::Memory,
    }
}

/// Reads the image and then the scenario, and runs the chain where the image leaves the slot free.
pub fn chain_files<F: Shelf, W: Sink>(
    alloc: Global,
    order: &ChainOrder<'_>,
    shelf: &mut F,
    bench: &mut Bench,
    out: &mut W,
) -> Result<Status, Status>
    requires empty { bench.old ≡ empty_bench }
    ensures served { IsServedTo (view_chain order.now) (status_in result) (F.told shelf.old) (F.told shelf.new) }
    ensures follows { FollowsWith empty_bench (status_in result) (chain_plan (view_chain order.now)) (F.told shelf.old) (F.told shelf.new) (W.told out.old) (W.told out.new) bench.new }
{
    let image = read_file(alloc, &ImageFile, order.image, shelf, out)?;
    let events = read_file(alloc, &ScenarioFile, order.scenario, shelf, out)?;
    match slot_taken(&image) {
        Some(at) => Err(end_refused(&line_of_slot(at), out)),
        None => Ok(chain_image(alloc, order, &image, &events, bench, out)),
    }
}
