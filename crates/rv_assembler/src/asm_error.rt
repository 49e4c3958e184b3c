// Why a source isn't assembled.
ghost use Rattle.std.specs.Prelude.{◌≡◌};

use asm_forms::AsmWhy;
use thiserror::Error;

/// The first refusal with its line, counted from 1; or memory was wanting.
#[derive(Clone, Copy, Debug, PartialEq, Eq, Drop, Error)]
pub enum AsmError {
    #[error("memory was wanting")]
    Memory,
    #[error("{why:?} in line {line}")]
    Refused { line: u32, why: AsmWhy },
}
