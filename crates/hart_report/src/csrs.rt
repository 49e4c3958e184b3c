// The control and status registers.
ghost use Rattle.std.specs.Prelude.{◌≡◌, ◌≤◌, length, is_ok};
ghost use Rattle.board_outside.specs.Sink.{Writes};
ghost use Rattle.hart_report.specs.Hart.{csr_line, mstatus_line, set_up_lines, trap_lines, level_lines, csr_lines};

use board_outside::{Sink, SinkFault};
use csr_file::Csrs;
use hart_words::Line;

#[tactic(auto, unfolding(crate::specs::Hart::csr_line))]
fn put_csr<W: Sink>(name: &str, number: u16, csrs: &Csrs, out: &mut W) -> Result<(), SinkFault>
    requires { length name.now ≤ 16 }
    ensures { Writes (is_ok result) (W.told out.old) (W.told out.new) (csr_line name.now number csrs.now) }
{
    let mut line = Line::new();
    line.put_text(name);
    line.put_text(" ");
    line.put_hex8(csrs.read(number).unwrap_or(0));
    line.put_text("\n");
    out.put(line.bytes())
}

/// Writes mstatus.
pub fn put_mstatus<W: Sink>(csrs: &Csrs, out: &mut W) -> Result<(), SinkFault>
    ensures { Writes (is_ok result) (W.told out.old) (W.told out.new) (mstatus_line csrs.now) }
{
    put_csr("mstatus", 0x300, csrs, out)
}

fn put_set_up<W: Sink>(csrs: &Csrs, out: &mut W) -> Result<(), SinkFault>
    ensures { Writes (is_ok result) (W.told out.old) (W.told out.new) (set_up_lines csrs.now) }
{
    put_mstatus(csrs, out)?;
    put_csr("mtvec", 0x305, csrs, out)?;
    put_csr("mtvt", 0x307, csrs, out)
}

fn put_trap<W: Sink>(csrs: &Csrs, out: &mut W) -> Result<(), SinkFault>
    ensures { Writes (is_ok result) (W.told out.old) (W.told out.new) (trap_lines csrs.now) }
{
    put_csr("mscratch", 0x340, csrs, out)?;
    put_csr("mepc", 0x341, csrs, out)?;
    put_csr("mcause", 0x342, csrs, out)?;
    put_csr("mtval", 0x343, csrs, out)
}

fn put_levels<W: Sink>(csrs: &Csrs, out: &mut W) -> Result<(), SinkFault>
    ensures { Writes (is_ok result) (W.told out.old) (W.told out.new) (level_lines csrs.now) }
{
    put_csr("mintstatus", 0xFB1, csrs, out)?;
    put_csr("mintthresh", 0x347, csrs, out)
}

/// Writes the nine control and status registers that a report tells.
pub fn put_csrs<W: Sink>(csrs: &Csrs, out: &mut W) -> Result<(), SinkFault>
    ensures { Writes (is_ok result) (W.told out.old) (W.told out.new) (csr_lines csrs.now) }
{
    put_set_up(csrs, out)?;
    put_trap(csrs, out)?;
    put_levels(csrs, out)
}
