// Why no scenario was read.
ghost use Rattle.std.specs.Prelude.{◌≡◌};
ghost use Rattle.board_inputs.specs.declared.scenario_error.ScenarioError.TheVariants.{Memory};

use crate::scenario_why::ScenarioWhy;
use hart_words::WantOfMemory;
use thiserror::Error;

/// Why no scenario was read.
#[derive(Clone, Copy, Debug, PartialEq, Eq, Drop, Error)]
pub enum ScenarioError {
    #[error("memory was wanting")]
    Memory,
    /// The first line in which something is wrong. The lines are counted from 1.
    #[error("{why:?} in line {line}")]
    Refused { line: u32, why: ScenarioWhy },
}

impl From<WantOfMemory> for ScenarioError {
    ghost from_gives = { λ _ e. e ≡ Memory };

    fn from(_: WantOfMemory) -> ScenarioError {
        ScenarioError::Memory
    }
}
