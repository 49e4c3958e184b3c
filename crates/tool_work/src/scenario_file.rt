// Scenario files.
ghost use Rattle.std.specs.Prelude.{◌≡◌, ◌≤◌, length};
ghost use Rattle.tool_work.specs.Files.{scenario_why};

use board_inputs::{ScenarioError, ScenarioWhy, read_scenario};
use hart_board::Events;
use std::alloc::Global;
use tool_frame::{FileKind, Stop, line_of_refusal};

/// Scenario files: each gives events.
#[derive(Drop)]
pub struct ScenarioFile;

fn scenario_why(why: ScenarioWhy) -> &'static str
    ensures text { result.now ≡ scenario_why why }
    ensures short { length result.now ≤ 13 }
{
    match why {
        ScenarioWhy::BadLine => "BadLine",
        ScenarioWhy::OutOfOrder => "OutOfOrder",
        ScenarioWhy::TooMany => "TooMany",
    }
}

impl FileKind for ScenarioFile {
    ghost use Rattle.std.specs.Prelude.{codes};
    ghost use Rattle.std.proofs.Common.{arith};
    ghost use Rattle.tool_work.specs.Files.{scenario_limit, scenario_read};

    type Value = Events;

    ghost role = { codes "scenario" };

    ghost stage = { λ _. scenario_read };

    ghost LIMIT = { scenario_limit };

    const LIMIT: u64 = 4_194_304;

    fn role() -> &'static str {
        "scenario"
    }

    #[tactic(auto, unfolding(crate::specs::Files::scenario_read))]
    fn read(&self, alloc: Global, bytes: &[u8]) -> Result<Events, Stop> {
        match read_scenario(alloc, bytes) {
            Ok(events) => Ok(events),
            Err(ScenarioError::Memory) => Err(Stop::Memory),
            Err(ScenarioError::Refused { line, why }) => {
                Err(Stop::Refused(line_of_refusal("scenario", scenario_why(why), line)))
            }
        }
    }

    ghost fetched = { omega arith };
}
