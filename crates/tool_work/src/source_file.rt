// Source files.
ghost use Rattle.std.specs.Prelude.{◌≡◌, ◌≤◌, length};
ghost use Rattle.tool_work.specs.Files.{source_why};

use asm_forms::AsmWhy;
use rv_assembler::{AsmError, Assembled, MAX_SOURCE, assemble};
use std::alloc::Global;
use tool_frame::{FileKind, Stop, line_of_refusal};

/// Source files: each gives an image and labels.
#[derive(Drop)]
pub struct SourceFile;

fn source_why(why: AsmWhy) -> &'static str
    ensures text { result.now ≡ source_why why }
    ensures short { length result.now ≤ 15 }
{
    match why {
        AsmWhy::Lex(_) => "Lex",
        AsmWhy::UnknownMnemonic => "UnknownMnemonic",
        AsmWhy::BadOperands => "BadOperands",
        AsmWhy::UnknownLabel => "UnknownLabel",
        AsmWhy::DoubleLabel => "DoubleLabel",
        AsmWhy::OutOfReach => "OutOfReach",
        AsmWhy::OutsideMemory => "OutsideMemory",
        AsmWhy::Overlap => "Overlap",
        AsmWhy::NoEntry => "NoEntry",
        AsmWhy::TooLarge => "TooLarge",
    }
}

impl FileKind for SourceFile {
    ghost use Rattle.std.specs.Prelude.{codes};
    ghost use Rattle.std.proofs.Common.{arith};
    ghost use Rattle.rv_assembler.specs.declared.assembling.TheConstants.{MAX_SOURCE};
    ghost use Rattle.tool_work.specs.Files.{source_read};

    type Value = Assembled;

    ghost role = { codes "source" };

    ghost stage = { λ _. source_read };

    ghost LIMIT = { MAX_SOURCE };

    const LIMIT: u64 = MAX_SOURCE as u64;

    fn role() -> &'static str {
        "source"
    }

    #[tactic(auto, unfolding(crate::specs::Files::source_read))]
    fn read(&self, alloc: Global, bytes: &[u8]) -> Result<Assembled, Stop> {
        match assemble(alloc, bytes) {
            Ok(assembled) => Ok(assembled),
            Err(AsmError::Memory) => Err(Stop::Memory),
            Err(AsmError::Refused { line, why }) => {
                Err(Stop::Refused(line_of_refusal("source", source_why(why), line)))
            }
        }
    }

    ghost fetched = { omega arith };
}
