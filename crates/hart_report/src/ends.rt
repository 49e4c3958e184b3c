// How it ended, and after how many steps.
ghost use Rattle.std.specs.Prelude.{◌≡◌, is_ok};
ghost use Rattle.board_outside.specs.Sink.{Writes};
ghost use Rattle.hart_report.specs.Ends.{halt_end, budget_end, vector_end, steps_line};

use board_outside::{Sink, SinkFault};
use hart_words::Line;

/// Writes that the board has halted with this code.
#[tactic(auto, unfolding(crate::specs::Ends::halt_end))]
pub fn put_halt_end<W: Sink>(code: u32, out: &mut W) -> Result<(), SinkFault>
    ensures { Writes (is_ok result) (W.told out.old) (W.told out.new) (halt_end code) }
{
    let mut line = Line::new();
    line.put_text("end halt ");
    line.put_hex8(code);
    line.put_text("\n");
    out.put(line.bytes())
}

/// Writes that the bound was reached.
pub fn put_budget_end<W: Sink>(out: &mut W) -> Result<(), SinkFault>
    ensures { Writes (is_ok result) (W.told out.old) (W.told out.new) budget_end }
{
    let mut line = Line::new();
    line.put_text("end budget\n");
    out.put(line.bytes())
}

/// Writes that the table's word for this input isn't in memory.
pub fn put_vector_end<W: Sink>(id: u32, out: &mut W) -> Result<(), SinkFault>
    ensures { Writes (is_ok result) (W.told out.old) (W.told out.new) (vector_end id) }
{
    let mut line = Line::new();
    line.put_text("end vector ");
    line.put_dec(u64::from(id));
    line.put_text("\n");
    out.put(line.bytes())
}

/// Writes how many steps were made.
#[tactic(auto, unfolding(crate::specs::Ends::steps_line))]
pub fn put_steps<W: Sink>(steps: u64, out: &mut W) -> Result<(), SinkFault>
    ensures { Writes (is_ok result) (W.told out.old) (W.told out.new) (steps_line steps) }
{
    let mut line = Line::new();
    line.put_text("steps ");
    line.put_dec(steps);
    line.put_text("\n");
    out.put(line.bytes())
}
