// A file is fetched, measured and read.
ghost use Rattle.std.specs.Prelude.{◌≡◌, ◌≤◌, length};
ghost use Rattle.tool_frame.specs.Lines.{too_large_line, refused_line};
ghost use Rattle.tool_frame.specs.Due.{refused_due};
ghost use Rattle.tool_frame.specs.Plan.{measured};
ghost use Rattle.tool_frame.specs.Answers.{Ends, ReadsFile};
ghost use Rattle.tool_frame.specs.Files.{AnswersStage};

use crate::ending::{end_fault, ended};
use crate::file_kind::FileKind;
use crate::status::Status;
use crate::stop::Stop;
use board_outside::{Shelf, Sink};
use hart_words::Line;
use std::alloc::Global;

/// The line of a file that is refused: its role, the reason, and the place or the line.
#[tactic(auto, unfolding(crate::specs::Lines::refused_line))]
pub fn line_of_refusal(role: &str, why: &str, number: u32) -> Line
    requires role { length role.now ≤ 13 }
    requires why { length why.now ≤ 15 }
    ensures { result ≡ refused_line role.now why.now number }
{
    let mut line = Line::new();
    line.put_text("refused ");
    line.put_text(role);
    line.put_text(" ");
    line.put_text(why);
    line.put_text(" ");
    line.put_dec(u64::from(number));
    line.put_text("\n");
    line
}

#[tactic(auto, unfolding(crate::specs::Lines::too_large_line))]
fn line_of_too_large(role: &str) -> Line
    requires { length role.now ≤ 13 }
    ensures { result ≡ too_large_line role.now }
{
    let mut line = Line::new();
    line.put_text("refused ");
    line.put_text(role);
    line.put_text(" TooLarge\n");
    line
}

/// Tells that a file is refused.
pub fn end_refused<W: Sink>(line: &Line, out: &mut W) -> Status
    ensures { Ends result (W.told out.old) (W.told out.new) (refused_due line.now) }
{
    ended(out.put(line.bytes()), Status::Refused)
}

// What the bytes give, or the first of them and one more than the limit.
#[tactic(auto, unfolding(crate::specs::Plan::measured))]
fn measure<K: FileKind>(alloc: Global, kind: &K, bytes: &[u8]) -> Result<K::Value, Stop>
    ensures { AnswersStage result (measured K.role K.LIMIT (K.stage kind.now) bytes.now) }
{
    if bytes.len() as u64 > K::LIMIT {
        return Err(Stop::Refused(line_of_too_large(K::role())));
    }
    kind.read(alloc, bytes)
}

/// Fetches the file of that name, measures it and reads it. Where it can't be had, the command has ended with
/// the status that is answered.
pub fn read_file<K: FileKind, F: Shelf, W: Sink>(
    alloc: Global,
    kind: &K,
    name: &str,
    shelf: &mut F,
    out: &mut W,
) -> Result<K::Value, Status>
    ensures { ReadsFile name.now K.LIMIT (measured K.role K.LIMIT (K.stage kind.now)) result (F.told shelf.old) (F.told shelf.new) (W.told out.old) (W.told out.new) }
{
    let bytes = match shelf.fetch(alloc, name, K::LIMIT) {
        Ok(bytes) => bytes,
        Err(fault) => return Err(end_fault(fault, name, out)),
    };
    match measure(alloc, kind, &bytes) {
        Ok(value) => Ok(value),
        Err(Stop::Refused(line)) => Err(end_refused(&line, out)),
        Err(Stop::Memory) => Err(Status::Memory),
    }
}
