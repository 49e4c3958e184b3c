// Why work on a line ends.
ghost use Rattle.std.specs.Prelude.{◌≡◌};
ghost use Rattle.rv_assembler.specs.declared.stop.Stop.TheVariants.{Memory};

use asm_forms::AsmWhy;
use hart_words::WantOfMemory;
use std::alloc::{AllocError, AllocFailed};

/// Memory was wanting, or the line is refused.
#[derive(Clone, Copy, Debug, PartialEq, Eq, Drop)]
pub(crate) enum Stop {
    Memory,
    Refused(AsmWhy),
}

impl From<WantOfMemory> for Stop {
    ghost from_gives = { λ _ e. e ≡ Memory };

    fn from(_: WantOfMemory) -> Stop {
        Stop::Memory
    }
}

impl From<AllocError> for Stop {
    ghost from_gives = { λ _ e. e ≡ Memory };

    fn from(_: AllocError) -> Stop {
        Stop::Memory
    }
}

impl<T: Drop> From<AllocFailed<T>> for Stop {
    ghost from_gives = { λ _ e. e ≡ Memory };

    fn from(_: AllocFailed<T>) -> Stop {
        Stop::Memory
    }
}
