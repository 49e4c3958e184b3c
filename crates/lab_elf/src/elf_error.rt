// Why nothing was read.
ghost use Rattle.std.specs.Prelude.{◌≡◌, Err};
ghost use Rattle.lab_elf.specs.declared.elf_error.ElfError.TheVariants.{Memory, Refused};

use crate::elf_why::ElfWhy;
use hart_words::WantOfMemory;
use thiserror::Error;

/// Why nothing was read.
#[derive(Clone, Copy, Debug, PartialEq, Eq, Drop, Error)]
pub enum ElfError {
    #[error("memory was wanting")]
    Memory,
    /// The first thing that is wrong. `place` counts the file's bytes from 0.
    #[error("{why:?} at byte {place}")]
    Refused { place: u32, why: ElfWhy },
}

impl From<WantOfMemory> for ElfError {
    ghost from_gives = { λ _ e. e ≡ Memory };

    fn from(_: WantOfMemory) -> ElfError {
        ElfError::Memory
    }
}

// Refuses what stands at a place.
pub(crate) fn refused<T>(place: u32, why: ElfWhy) -> Result<T, ElfError>
    ensures { result ≡ Err (Refused place why) }
{
    Err(ElfError::Refused { place, why })
}
