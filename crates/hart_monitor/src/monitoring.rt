// A script on a board.
ghost use Rattle.std.specs.Prelude.{◌≡◌, true, OnOk, IfErr};
ghost use Rattle.board_outside.specs.Sink.{Writes};
ghost use Rattle.clic_regs.specs.Shape.{plain_shape};
ghost use Rattle.hart_monitor.specs.Session.{opened, outcome_of};
ghost use Rattle.hart_monitor.specs.Faults.{StopsAt, WritesFront};

use crate::breakpoints::Breakpoints;
use crate::monitor_fault::MonitorFault;
use crate::obeying::obey;
use crate::script::Script;
use board_outside::Sink;
use device_model::Device;
use hart_board::Board;
use hart_board::laws::kept_states_stay;
use std::alloc::Global;

/// Does the commands of a script one after the other, and writes their texts. States that the board keeps already can be
/// gone back to. `SinkFailed` comes only where the sink's count of faults rose, and where it rose no other answer comes.
pub fn monitor<D: Device, W: Sink>(
    alloc: Global,
    board: &mut Board<D>,
    script: &Script,
    out: &mut W,
) -> Result<(), MonitorFault>
    requires { board.old.outside.clic.shape ≡ plain_shape }
    ensures done { OnOk result (board.new ≡ (outcome_of D.means script.now (opened board.old)).session.board) }
    ensures text { OnOk result (Writes true (W.told out.old) (W.told out.new) (outcome_of D.means script.now (opened board.old)).text) }
    ensures stops { IfErr result (λ fault. StopsAt D.means script.now board.old fault board.new (W.told out.old) (W.told out.new)) }
    ensures front { IfErr result (λ fault. WritesFront fault (W.told out.old) (W.told out.new) (outcome_of D.means script.now (opened board.old)).text) }
    ensures shape { board.new.outside.clic.shape ≡ plain_shape }
{
    let _ = board.kept();
    kept_states_stay::<D>();
    let mut breaks = Breakpoints::new();
    for i in 0..script.len() {
        obey(alloc, script.get(i), board, &mut breaks, out)?;
    }
    Ok(())
}
