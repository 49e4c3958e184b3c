// Script files.
ghost use Rattle.std.specs.Prelude.{◌≡◌, ◌≤◌, length};
ghost use Rattle.tool_work.specs.Files.{script_why};

use hart_monitor::{Script, ScriptError, ScriptWhy, read_script};
use std::alloc::Global;
use tool_frame::{FileKind, Stop, line_of_refusal};

/// Script files: each gives commands.
#[derive(Drop)]
pub struct ScriptFile;

fn script_why(why: ScriptWhy) -> &'static str
    ensures text { result.now ≡ script_why why }
    ensures short { length result.now ≤ 13 }
{
    match why {
        ScriptWhy::BadLine => "BadLine",
        ScriptWhy::TooMany => "TooMany",
    }
}

impl FileKind for ScriptFile {
    ghost use Rattle.std.specs.Prelude.{codes};
    ghost use Rattle.std.proofs.Common.{arith};
    ghost use Rattle.tool_work.specs.Files.{script_limit, script_read};

    type Value = Script;

    ghost role = { codes "script" };

    ghost stage = { λ _. script_read };

    ghost LIMIT = { script_limit };

    const LIMIT: u64 = 65_536;

    fn role() -> &'static str {
        "script"
    }

    #[tactic(auto, unfolding(crate::specs::Files::script_read))]
    fn read(&self, alloc: Global, bytes: &[u8]) -> Result<Script, Stop> {
        match read_script(alloc, bytes) {
            Ok(script) => Ok(script),
            Err(ScriptError::Memory) => Err(Stop::Memory),
            Err(ScriptError::Refused { line, why }) => {
                Err(Stop::Refused(line_of_refusal("script", script_why(why), line)))
            }
        }
    }

    ghost fetched = { omega arith };
}
