// ELF files, and the image that each loads.
ghost use Rattle.std.specs.Prelude.{◌≡◌, ◌≤◌, length};
ghost use Rattle.lab_work.specs.Files.{elf_why};

use hart_memory::Image;
use lab_elf::{ElfError, ElfWhy, read_elf};
use std::alloc::Global;
use tool_frame::{FileKind, Stop, line_of_refusal};

/// ELF files: each gives an image.
#[derive(Drop)]
pub struct ElfFile;

/// What is wrong with an ELF file, by name.
pub fn elf_why(why: ElfWhy) -> &'static str
    ensures text { result.now ≡ elf_why why }
    ensures short { length result.now ≤ 13 }
{
    match why {
        ElfWhy::Truncated => "Truncated",
        ElfWhy::BadMagic => "BadMagic",
        ElfWhy::BadClass => "BadClass",
        ElfWhy::BadOrder => "BadOrder",
        ElfWhy::NotLinked => "NotLinked",
        ElfWhy::NotRiscV => "NotRiscV",
        ElfWhy::BadHeader => "BadHeader",
        ElfWhy::NoSections => "NoSections",
        ElfWhy::TooMany => "TooMany",
        ElfWhy::Unplaced => "Unplaced",
        ElfWhy::OutsideMemory => "OutsideMemory",
        ElfWhy::Overlap => "Overlap",
        ElfWhy::NoSymbols => "NoSymbols",
        ElfWhy::BadLink => "BadLink",
        ElfWhy::BadName => "BadName",
    }
}

impl FileKind for ElfFile {
    ghost use Rattle.std.specs.Prelude.{codes};
    ghost use Rattle.std.proofs.Common.{arith};
    ghost use Rattle.lab_work.specs.Files.{elf_limit, elf_read};

    type Value = Image;

    ghost role = { codes "elf" };

    ghost stage = { λ _. elf_read };

    ghost LIMIT = { elf_limit };

    const LIMIT: u64 = 16_777_216;

    fn role() -> &'static str {
        "elf"
    }

    #[tactic(auto, unfolding(crate::specs::Files::elf_read))]
    fn read(&self, alloc: Global, bytes: &[u8]) -> Result<Image, Stop> {
        match read_elf(alloc, bytes) {
            Ok(image) => Ok(image),
            Err(ElfError::Memory) => Err(Stop::Memory),
            Err(ElfError::Refused { place, why }) => {
                Err(Stop::Refused(line_of_refusal("elf", elf_why(why), place)))
            }
        }
    }

    ghost fetched = { omega arith };
}
