// The trace of a run.
ghost use Rattle.std.specs.Prelude.{◌≡◌, ◌≤◌, length, [], true, is_ok, OnErr};
ghost use Rattle.board_outside.specs.Sink.{Writes};
ghost use Rattle.hart_report.specs.Trace.{word_line, half_line, entry_line, trace_line, step_text};

use crate::stepped::Stepped;
use board_outside::{Sink, SinkFault};
use hart_words::Line;

#[inline(always)]
fn fill_word(pc: u32, bits: u32, line: &mut Line)
    requires { line.old ≡ [] }
    ensures { line.new ≡ word_line pc bits }
{
    line.put_text("i ");
    line.put_hex8(pc);
    line.put_text(" ");
    line.put_hex8(bits);
    line.put_text("\n");
}

#[inline(always)]
fn fill_half(pc: u32, bits: u32, line: &mut Line)
    requires { line.old ≡ [] }
    ensures { line.new ≡ half_line pc bits }
{
    line.put_text("c ");
    line.put_hex8(pc);
    line.put_text(" ");
    line.put_hex4((bits % 0x1_0000) as u16);
    line.put_text("\n");
}

// The line of an entry, with an input or a code.
fn fill_entry(kind: &str, pc: u32, number: u32, line: &mut Line)
    requires empty { line.old ≡ [] }
    requires short { length kind.now ≤ 2 }
    ensures { line.new ≡ entry_line kind.now pc number }
{
    line.put_text(kind);
    line.put_hex8(pc);
    line.put_text(" ");
    line.put_dec(u64::from(number));
    line.put_text("\n");
}

#[inline(always)]
#[tactic(auto, unfolding(crate::specs::Trace::trace_line))]
fn fill_step(told: &Stepped, line: &mut Line)
    requires { line.old ≡ [] }
    ensures { line.new ≡ trace_line told.now }
{
    match *told {
        Stepped::Retired { pc, bits, length } => {
            if length == 4 {
                fill_word(pc, bits, line);
            } else {
                fill_half(pc, bits, line);
            }
        }
        Stepped::Interrupted { pc, id } => fill_entry("q ", pc, id, line),
        Stepped::Raised { pc, code } => fill_entry("x ", pc, u32::from(code), line),
        Stepped::Halted(_) | Stepped::VectorFault(_) => {}
    }
}

// The same by a call, for a caller that has to stay small.
#[inline(never)]
fn fill_by_call(told: &Stepped, line: &mut Line)
    requires { line.old ≡ [] }
    ensures { line.new ≡ trace_line told.now }
{
    fill_step(told, line);
}

/// Writes the line of a step. Its code stands in the caller's loop.
#[inline(always)]
pub fn put_told<W: Sink>(told: &Stepped, out: &mut W) -> Result<(), SinkFault>
    ensures { Writes (is_ok result) (W.told out.old) (W.told out.new) (trace_line told.now) }
{
    let mut line = Line::new();
    fill_step(told, &mut line);
    out.put(line.bytes())
}

/// Writes the line of a step, where a trace is asked for.
#[inline(always)]
pub fn put_step<W: Sink>(on: bool, told: &Stepped, out: &mut W) -> Result<(), SinkFault>
    ensures text { Writes (is_ok result) (W.told out.old) (W.told out.new) (step_text on told.now) }
    ensures asked { OnErr result (on ≡ true) }
{
    if !on {
        return Ok(());
    }
    let mut line = Line::new();
    fill_by_call(told, &mut line);
    out.put(line.bytes())
}
