// Why no memory text was read.
ghost use Rattle.std.specs.Prelude.{◌≡◌};
ghost use Rattle.mem_text.specs.declared.mem_error.MemError.TheVariants.{Memory};

use crate::mem_why::MemWhy;
use hart_words::WantOfMemory;
use std::alloc::AllocFailed;
use thiserror::Error;

/// Why no memory text was read.
#[derive(Clone, Copy, Debug, PartialEq, Eq, Drop, Error)]
pub enum MemError {
    #[error("memory was wanting")]
    Memory,
    /// The first thing that is wrong. `place` counts the text's bytes from 0.
    #[error("{why:?} at byte {place}")]
    Refused { place: u32, why: MemWhy },
}

impl From<WantOfMemory> for MemError {
    ghost from_gives = { λ _ e. e ≡ Memory };

    fn from(_: WantOfMemory) -> MemError {
        MemError::Memory
    }
}
