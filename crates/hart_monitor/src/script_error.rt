// Why no script was read.
ghost use Rattle.std.specs.Prelude.{◌≡◌};
ghost use Rattle.hart_monitor.specs.declared.script_error.ScriptError.TheVariants.{Memory};

use crate::script_why::ScriptWhy;
use hart_words::WantOfMemory;
use thiserror::Error;

/// Why no script was read.
#[derive(Clone, Copy, Debug, PartialEq, Eq, Drop, Error)]
pub enum ScriptError {
    #[error("memory was wanting")]
    Memory,
    /// The first line in which something is wrong. The lines are counted from 1.
    #[error("{why:?} in line {line}")]
    Refused { line: u32, why: ScriptWhy },
}

impl From<WantOfMemory> for ScriptError {
    ghost from_gives = { λ _ e. e ≡ Memory };

    fn from(_: WantOfMemory) -> ScriptError {
        ScriptError::Memory
    }
}
