// What each command does.
ghost use Rattle.std.specs.Prelude.{◌≡◌, ℕ, List, true, OnOk, OnErr};
ghost use Rattle.hart_board.specs.State.{State};
ghost use Rattle.hart_board.specs.Event.{is_free};
ghost use Rattle.hart_board.specs.declared.what.What.TheVariants.{Line};
ghost use Rattle.hart_monitor.specs.Spelling.{IsInRange};
ghost use Rattle.hart_monitor.specs.Session.{IsPlain, line_set};
ghost use Rattle.hart_monitor.specs.Faults.{Obeys, of_sink};
ghost use Rattle.hart_monitor.specs.declared.command.Command.TheVariants.{Step, Run};

use crate::breakpoints::Breakpoints;
use crate::bytes::{put_bytes, put_input};
use crate::command::Command;
use crate::going::{make_steps, run_until};
use crate::monitor_fault::MonitorFault;
use crate::texts::{put_back, put_break, put_stop};
use board_outside::{Sink, SinkFault};
use device_model::Device;
use hart_board::{Board, What};
use hart_report::{put_csrs, put_pc_and_registers};
use hart_words::WantOfMemory;
use std::alloc::Global;

fn of_sink(answer: Result<(), SinkFault>) -> Result<(), MonitorFault>
    ensures { result ≡ of_sink answer }
{
    match answer {
        Ok(()) => Ok(()),
        Err(_) => Err(MonitorFault::SinkFailed),
    }
}

// Keeps the board's state, and makes steps.
fn step_board<D: Device, W: Sink>(
    alloc: Global,
    count: u32,
    board: &mut Board<D>,
    out: &mut W,
) -> Result<(), MonitorFault>
    ensures { (breaks : List ℕ) → Obeys D.means (Step count) (record { board = board.old; breaks = breaks }) result (record { board = board.new; breaks = breaks }) (W.told out.old) (W.told out.new) }
{
    board.keep(alloc)?;
    of_sink(make_steps(count, board, out))
}

// Keeps the board's state, runs, and tells why it stopped.
fn run_board<D: Device, W: Sink>(
    alloc: Global,
    count: u32,
    breaks: &Breakpoints,
    board: &mut Board<D>,
    out: &mut W,
) -> Result<(), MonitorFault>
    ensures { Obeys D.means (Run count) (record { board = board.old; breaks = breaks.now }) result (record { board = board.new; breaks = breaks.now }) (W.told out.old) (W.told out.new) }
{
    board.keep(alloc)?;
    let why = run_until(count, breaks, board);
    of_sink(put_stop(why, board.pc(), out))
}

// Keeps the board's state, and changes an input's line.
#[tactic(auto, unfolding(crate::specs::Session::line_set))]
fn set_line<D: Device>(
    alloc: Global,
    input: u32,
    high: bool,
    board: &mut Board<D>,
) -> Result<(), WantOfMemory>
    requires { is_free board.old.outside.clic.shape.inputs (Line input high) ≡ true }
    ensures set { OnOk result (board.new ≡ line_set D.means input high board.old) }
    ensures unchanged { OnErr result (board.new ≡ board.old) }
{
    board.keep(alloc)?;
    board.apply(&What::Line { input, high });
    Ok(())
}

/// Does a command.
pub(crate) fn obey<D: Device, W: Sink>(
    alloc: Global,
    command: Command,
    board: &mut Board<D>,
    breaks: &mut Breakpoints,
    out: &mut W,
) -> Result<(), MonitorFault>
    requires range { IsInRange command }
    requires plain { IsPlain board.old }
    ensures { Obeys D.means command (record { board = board.old; breaks = breaks.old }) result (record { board = board.new; breaks = breaks.new }) (W.told out.old) (W.told out.new) }
{
    match command {
        Command::Step(count) => step_board(alloc, count, board, out),
        Command::Run(count) => run_board(alloc, count, breaks, board, out),
        Command::Break(at) => {
            let stands = breaks.set(at);
            of_sink(put_break(stands, at, out))
        }
        Command::Regs => of_sink(put_pc_and_registers(board.pc(), board.regs(), out)),
        Command::Csr => of_sink(put_csrs(board.csrs(), out)),
        Command::Mem { at, count } => of_sink(put_bytes(board.banks(), at, count, out)),
        Command::Clic(input) => of_sink(put_input(board.select().clic(), input, out)),
        Command::Line { input, high } => Ok(set_line(alloc, input, high, board)?),
        Command::Back => {
            let went = board.back();
            of_sink(put_back(went, board.pc(), out))
        }
    }
}
