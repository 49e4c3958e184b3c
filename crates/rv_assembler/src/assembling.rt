// From a source to an image.
ghost use Rattle.std.specs.Prelude.{◌≡◌, IfOk, Ok};
ghost use Rattle.rv_assembler.specs.Source.{Program, assembled};
ghost use Rattle.rv_assembler.specs.Answers.{Gives};
ghost use Rattle.rv_assembler.specs.Relation.{IsSource};

use crate::asm_error::AsmError;
use crate::assembled::Assembled;
use crate::building::Building;
use crate::cutting::image_of;
use crate::line_work::do_lines;
use crate::passing::Passing;
use asm_forms::AsmWhy;
use std::alloc::Global;

/// The greatest length of a source.
pub const MAX_SOURCE: usize = 2_097_152;

// Measures the source, and passes over its lines twice.
#[tactic(auto, using(std::proofs::lemmas::Bool::Decides::nat_tests), unfolding(crate::specs::Source::assembled))]
fn assembled_in(alloc: Global, source: &[u8]) -> Result<Assembled, AsmError>
    ensures answer { Gives result (assembled source.now) }
    ensures source { IfOk result (λ a. IsSource source.now (record { image = a.image; symbols = a.symbols })) }
{
    if source.len() > MAX_SOURCE {
        return Err(AsmError::Refused {
            line: 0,
            why: AsmWhy::TooLarge,
        });
    }
    let mut passing = Passing::new(alloc);
    do_lines(&mut passing, &alloc, source)?;
    let Passing { laying, symbols } = passing;
    let mut building = Building::new(alloc);
    do_lines(&mut building, &symbols, source)?;
    if !laying.is_entered() {
        return Err(AsmError::Refused {
            line: 0,
            why: AsmWhy::NoEntry,
        });
    }
    match image_of(alloc, laying, &building) {
        Ok(image) => Ok(Assembled { image, symbols }),
        Err(_) => Err(AsmError::Memory),
    }
}

/// Assembles a source: its image and its labels, or the first refusal with its line. Lines count from 1; at line 0
/// the source is too long, or no line names the entry.
pub fn assemble(alloc: Global, source: &[u8]) -> Result<Assembled, AsmError>
    ensures answer { Gives result (assembled source.now) }
    // What is answered is the program of the source.
    ensures source { IfOk result (λ a. IsSource source.now (record { image = a.image; symbols = a.symbols })) }
    // The program of the source is what is answered, unless memory was wanting.
    ensures only { (p : Program) → IsSource source.now p → Gives result (Ok p) }
{
    assembled_in(alloc, source)
}
