// The lines that a chain adds to a trace and a report.
ghost use Rattle.std.specs.Prelude.{◌≡◌, ◌≤◌, ◌++◌, length, is_ok};
ghost use Rattle.board_outside.specs.Sink.{Writes};
ghost use Rattle.chain_core.specs.Text.{begun_line, service_line, kind_name, broken_end, bodies_line};

use board_outside::{Sink, SinkFault};
use chain_moves::Broken;
use hart_words::Line;

/// Writes that a service begins, after its mark: the number of its input, its level and its depth.
#[tactic(auto, unfolding(crate::specs::Text::begun_line))]
pub fn put_begun<W: Sink>(
    mark: &str,
    number: u32,
    level: u8,
    depth: u64,
    out: &mut W,
) -> Result<(), SinkFault>
    requires { length mark.now ≤ 2 }
    ensures { Writes (is_ok result) (W.told out.old) (W.told out.new) (begun_line mark.now number level depth) }
{
    let mut line = Line::new();
    line.put_text(mark);
    line.put_dec(u64::from(number));
    line.put_text(" ");
    line.put_dec(u64::from(level));
    line.put_text(" ");
    line.put_dec(depth);
    line.put_text("\n");
    out.put(line.bytes())
}

/// Writes that a chained service begins.
#[tactic(auto, unfolding(crate::specs::Text::service_line))]
pub fn put_service<W: Sink>(
    number: u16,
    level: u8,
    depth: u64,
    out: &mut W,
) -> Result<(), SinkFault>
    ensures { Writes (is_ok result) (W.told out.old) (W.told out.new) (service_line number level depth) }
{
    put_begun("s ", u32::from(number), level, depth, out)
}

// A kind that has no code, by its name.
#[tactic(auto, unfolding(crate::specs::Text::kind_name))]
fn fill_kind(kind: Broken, line: &mut Line)
    requires { length line.old ≤ 11 }
    ensures bytes { line.new ≡ line.old ++ kind_name kind }
    ensures len { length line.new ≤ 42 }
{
    match kind {
        Broken::CsrTouched => line.put_text("CsrTouched"),
        Broken::RegisterLost => line.put_text("RegisterLost"),
        Broken::ReadsDispatch => line.put_text("ReadsDispatch"),
        Broken::WritesFrame => line.put_text("WritesFrame"),
        Broken::StackBad => line.put_text("StackBad"),
        Broken::BadTable => line.put_text("BadTable"),
        Broken::NoDispatcher => line.put_text("NoDispatcher"),
        Broken::HardVectored => line.put_text("HardVectored"),
        Broken::EnteredDispatch => line.put_text("EnteredDispatch"),
        Broken::HaltInHandler => line.put_text("HaltInHandler"),
        Broken::Exception(code) => {
            line.put_text("Exception ");
            line.put_dec(u64::from(code));
        }
    }
}

/// Writes that the convention was broken after so many bodies.
#[tactic(auto, unfolding(crate::specs::Text::broken_end))]
pub fn put_broken_end<W: Sink>(kind: Broken, bodies: u64, out: &mut W) -> Result<(), SinkFault>
    ensures { Writes (is_ok result) (W.told out.old) (W.told out.new) (broken_end kind bodies) }
{
    let mut line = Line::new();
    line.put_text("end broken ");
    fill_kind(kind, &mut line);
    line.put_text(" ");
    line.put_dec(bodies);
    line.put_text("\n");
    out.put(line.bytes())
}

/// Writes how many bodies were made.
#[tactic(auto, unfolding(crate::specs::Text::bodies_line))]
pub fn put_bodies<W: Sink>(bodies: u64, out: &mut W) -> Result<(), SinkFault>
    ensures { Writes (is_ok result) (W.told out.old) (W.told out.new) (bodies_line bodies) }
{
    let mut line = Line::new();
    line.put_text("bodies ");
    line.put_dec(bodies);
    line.put_text("\n");
    out.put(line.bytes())
}
