// The report of a chain.
ghost use Rattle.std.specs.Prelude.{◌≡◌, is_ok};
ghost use Rattle.board_outside.specs.Sink.{Writes};
ghost use Rattle.chain_core.specs.Text.{end_line, board_part, done_part, report};
ghost use Rattle.chain_core.specs.Closing.{Closes};

use crate::chain_end::ChainEnd;
use crate::ended::Ended;
use crate::telling::{put_bodies, put_broken_end};
use board_outside::{Sink, SinkFault};
use chain_moves::Watch;
use device_model::Device;
use hart_board::Board;
use hart_report::{
    put_budget_end, put_halt_end, put_mstatus, put_output, put_pc_and_registers, put_ram, put_steps,
};

/// Writes how a chain ended: with which code, where the board has halted.
pub fn put_end<W: Sink>(end: ChainEnd, halted: Option<u32>, out: &mut W) -> Result<(), SinkFault>
    ensures { Writes (is_ok result) (W.told out.old) (W.told out.new) (end_line end halted) }
{
    match end {
        ChainEnd::Done { .. } => put_halt_end(halted.unwrap_or(0), out),
        ChainEnd::BudgetSpent => put_budget_end(out),
        ChainEnd::Broken { kind, bodies } => put_broken_end(kind, bodies, out),
        ChainEnd::SinkFailed => Ok(()),
    }
}

// The hart, the device's output, and RAM but for its dead bytes.
#[tactic(auto, unfolding(crate::specs::Text::board_part))]
fn put_board<D: Device, W: Sink>(
    watch: &Watch,
    board: &Board<D>,
    out: &mut W,
) -> Result<(), SinkFault>
    ensures { Writes (is_ok result) (W.told out.old) (W.told out.new) (board_part D.means watch.now.dead board.now) }
{
    put_pc_and_registers(board.pc(), board.regs(), out)?;
    put_mstatus(board.csrs(), out)?;
    put_output(board.device(), out)?;
    put_ram(board.banks(), watch, out)
}

// What follows the steps.
fn put_done<D: Device, W: Sink>(
    end: ChainEnd,
    watch: &Watch,
    board: &Board<D>,
    out: &mut W,
) -> Result<(), SinkFault>
    ensures { Writes (is_ok result) (W.told out.old) (W.told out.new) (done_part D.means watch.now.dead board.now end) }
{
    match end {
        ChainEnd::Done { bodies, .. } => {
            put_bodies(bodies, out)?;
            put_board(watch, board, out)
        }
        _ => Ok(()),
    }
}

// The report of a chain that ended so on this board.
#[tactic(auto, unfolding(crate::specs::Text::report))]
fn put_report<D: Device, W: Sink>(
    ended: &Ended,
    watch: &Watch,
    board: &Board<D>,
    out: &mut W,
) -> Result<(), SinkFault>
    ensures { Writes (is_ok result) (W.told out.old) (W.told out.new) (report D.means watch.now.dead board.now ended.now.end ended.now.steps) }
{
    put_end(ended.end, board.halted(), out)?;
    put_steps(ended.steps, out)?;
    put_done(ended.end, watch, board, out)
}

/// Writes the report of a chain whose rounds came to this end, where the sink didn't fail in them. The
/// answer is how the chain ends.
pub fn close<D: Device, W: Sink>(
    rounds: Result<Ended, SinkFault>,
    watch: &Watch,
    board: &Board<D>,
    out: &mut W,
) -> ChainEnd
    ensures { Closes D.means rounds watch.now.dead board.now result (W.told out.old) (W.told out.new) }
{
    match rounds {
        Ok(ended) => match put_report(&ended, watch, board, out) {
            Ok(()) => ended.end,
            Err(_) => ChainEnd::SinkFailed,
        },
        Err(_) => ChainEnd::SinkFailed,
    }
}
