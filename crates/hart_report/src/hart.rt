// The hart: pc, the registers, and the control and status registers.
ghost use Rattle.std.specs.Prelude.{◌≡◌, is_ok};
ghost use Rattle.board_outside.specs.Sink.{Writes};
ghost use Rattle.hart_report.specs.Hart.{pc_line, register_line, register_lines, pc_and_registers, hart_lines};

use crate::csrs::put_csrs;
use board_outside::{Sink, SinkFault};
use csr_file::Csrs;
use hart_words::{Line, Regs};

#[tactic(auto, unfolding(crate::specs::Hart::pc_line))]
fn put_pc<W: Sink>(pc: u32, out: &mut W) -> Result<(), SinkFault>
    ensures { Writes (is_ok result) (W.told out.old) (W.told out.new) (pc_line pc) }
{
    let mut line = Line::new();
    line.put_text("pc ");
    line.put_hex8(pc);
    line.put_text("\n");
    out.put(line.bytes())
}

#[tactic(auto, unfolding(crate::specs::Hart::register_line))]
fn put_register<W: Sink>(i: u8, value: u32, out: &mut W) -> Result<(), SinkFault>
    ensures { Writes (is_ok result) (W.told out.old) (W.told out.new) (register_line i value) }
{
    let mut line = Line::new();
    line.put_text("x");
    line.put_dec(u64::from(i));
    line.put_text(" ");
    line.put_hex8(value);
    line.put_text("\n");
    out.put(line.bytes())
}

fn put_registers<W: Sink>(registers: &Regs, out: &mut W) -> Result<(), SinkFault>
    ensures { Writes (is_ok result) (W.told out.old) (W.told out.new) (register_lines 31 1 registers.now) }
{
    for i in 1..32u8 {
        put_register(i, registers.get(i), out)?;
    }
    Ok(())
}

/// Writes pc, and the registers from x1 on.
pub fn put_pc_and_registers<W: Sink>(
    pc: u32,
    registers: &Regs,
    out: &mut W,
) -> Result<(), SinkFault>
    ensures { Writes (is_ok result) (W.told out.old) (W.told out.new) (pc_and_registers pc registers.now) }
{
    put_pc(pc, out)?;
    put_registers(registers, out)
}

/// Writes pc, the registers from x1 on, and the control and status registers.
pub fn put_hart<W: Sink>(
    pc: u32,
    registers: &Regs,
    csrs: &Csrs,
    out: &mut W,
) -> Result<(), SinkFault>
    ensures { Writes (is_ok result) (W.told out.old) (W.told out.new) (hart_lines pc registers.now csrs.now) }
{
    put_pc_and_registers(pc, registers, out)?;
    put_csrs(csrs, out)
}
