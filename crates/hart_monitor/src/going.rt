// Steps of the monitor.
ghost use Rattle.std.specs.Prelude.{◌≡◌, [], true, OnOk, OnErr};
ghost use Rattle.board_outside.specs.Sink.{Writes};
ghost use Rattle.hart_board.specs.Run.{every_step, run_of};
ghost use Rattle.hart_board.specs.Text.{StopsInTrace};
ghost use Rattle.hart_report.specs.Trace.{trace_text};
ghost use Rattle.hart_monitor.specs.Stopping.{stops_in};

use crate::breakpoints::Breakpoints;
use crate::stop::Stop;
use board_outside::{Sink, SinkFault};
use device_model::Device;
use hart_board::Board;
use hart_report::{Stepped, put_step};

/// Makes at most so many steps, with the line of each.
pub(crate) fn make_steps<D: Device, W: Sink>(
    count: u32,
    board: &mut Board<D>,
    out: &mut W,
) -> Result<(), SinkFault>
    ensures whole { let due = run_of D.means every_step [] count board.old in
        OnOk result ((board.new ≡ due.state) × Writes true (W.told out.old) (W.told out.new) (trace_text true due.steps)) }
    ensures stopped { OnErr result (StopsInTrace D.means every_step [] board.old (run_of D.means every_step [] count board.old).steps board.new (W.told out.old) (W.told out.new)) }
{
    for _ in 0..count {
        if let Some(_) = board.halted() {
            return Ok(());
        }
        let told = board.step();
        if let Stepped::VectorFault(_) = told {
            return Ok(());
        }
        put_step(true, &told, out)?;
    }
    Ok(())
}

/// Steps until the board has halted, a breakpoint is reached, or so many were made.
#[tactic(auto, unfolding(crate::specs::Stopping::stops_in))]
pub(crate) fn run_until<D: Device>(count: u32, breaks: &Breakpoints, board: &mut Board<D>) -> Stop
    ensures { record { why = result; state = board.new } ≡ stops_in D.means breaks.now count board.old }
{
    for _ in 0..count {
        if let Stepped::VectorFault(_) = board.step() {
            return Stop::Vector;
        }
        if let Some(_) = board.halted() {
            return Stop::Halt;
        }
        if breaks.contains(board.pc()) {
            return Stop::Break;
        }
    }
    Stop::Budget
}
