// Words that are no command.
ghost use Rattle.tool_frame.specs.Answers.{Ends};
ghost use Rattle.clic_lab.specs.Usage.{usage_due};

use board_outside::Sink;
use tool_frame::{Status, end_usage as end_with};

/// Tells that the words are no command.
#[tactic(auto, unfolding(crate::specs::Usage::usage_line))]
pub fn end_usage<W: Sink>(out: &mut W) -> Status
    ensures { Ends result (W.told out.old) (W.told out.new) usage_due }
{
    end_with(b"usage: clic_lab elf | names | trace | sweep\n", out)
}
