// Why no names were read.
ghost use Rattle.std.specs.Prelude.{◌≡◌};
ghost use Rattle.lab_names.specs.declared.names_error.NamesError.TheVariants.{Memory};

use crate::names_why::NamesWhy;
use hart_words::WantOfMemory;
use thiserror::Error;

/// Why no names were read.
#[derive(Clone, Copy, Debug, PartialEq, Eq, Drop, Error)]
pub enum NamesError {
    #[error("memory was wanting")]
    Memory,
    /// The first line in which something is wrong. The lines are counted from 1.
    #[error("{why:?} in line {line}")]
    Refused { line: u32, why: NamesWhy },
}

impl From<WantOfMemory> for NamesError {
    ghost from_gives = { λ _ e. e ≡ Memory };

    fn from(_: WantOfMemory) -> NamesError {
        NamesError::Memory
    }
}
