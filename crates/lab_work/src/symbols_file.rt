// ELF files, and the names of their symbols.
use crate::elf_file::elf_why;
use crate::listed_names::ListedNames;
use lab_elf::{ElfError, read_symbols};
use std::alloc::Global;
use tool_frame::{FileKind, Stop, line_of_refusal};

/// ELF files: each gives names, all or those of code alone.
#[derive(Drop)]
pub struct SymbolsFile {
    pub code: bool,
}

impl FileKind for SymbolsFile {
    ghost use Rattle.std.specs.Prelude.{codes};
    ghost use Rattle.std.proofs.Common.{arith};
    ghost use Rattle.lab_work.specs.Files.{elf_limit, symbols_read};

    type Value = ListedNames;

    ghost role = { codes "elf" };

    ghost stage = { λ kind. symbols_read kind.code };

    ghost LIMIT = { elf_limit };

    const LIMIT: u64 = 16_777_216;

    fn role() -> &'static str {
        "elf"
    }

    #[tactic(auto, unfolding(crate::specs::Files::symbols_read))]
    fn read(&self, alloc: Global, bytes: &[u8]) -> Result<ListedNames, Stop> {
        match read_symbols(alloc, bytes, self.code) {
            Ok(names) => Ok(ListedNames { names }),
            Err(ElfError::Memory) => Err(Stop::Memory),
            Err(ElfError::Refused { place, why }) => {
                Err(Stop::Refused(line_of_refusal("elf", elf_why(why), place)))
            }
        }
    }

    ghost fetched = { omega arith };
}
