// Memory texts.
ghost use Rattle.std.specs.Prelude.{◌≡◌, ◌≤◌, ◌<◌, ◌^◌, length};
ghost use Rattle.mem_text.specs.Reading.{read_text};
ghost use Rattle.mem_text.specs.Standing.{Gives};
ghost use Rattle.tool_work.specs.Files.{memory_why};

use hart_memory::Image;
use mem_text::{MemError, MemReader, MemWhy};
use std::alloc::Global;
use tool_frame::{FileKind, Stop, line_of_refusal};

/// Memory texts: each gives an image with this entry.
#[derive(Drop)]
pub struct MemoryFile {
    pub entry: u32,
}

fn memory_why(why: MemWhy) -> &'static str
    ensures text { result.now ≡ memory_why why }
    ensures short { length result.now ≤ 13 }
{
    match why {
        MemWhy::BadByte => "BadByte",
        MemWhy::TooMany => "TooMany",
        MemWhy::OutsideMemory => "OutsideMemory",
        MemWhy::Overlap => "Overlap",
        MemWhy::Truncated => "Truncated",
    }
}

// The image of a whole text.
fn read_whole(alloc: Global, entry: u32, bytes: &[u8]) -> Result<Image, MemError>
    requires { length bytes.now < 2 ^ 32 }
    ensures { Gives (λ i. i) result (read_text entry bytes.now) }
{
    let mut reader = MemReader::new(alloc, entry);
    reader.feed(bytes)?;
    reader.finish()
}

impl FileKind for MemoryFile {
    ghost use Rattle.std.specs.Prelude.{codes};
    ghost use Rattle.std.proofs.Common.{arith};
    ghost use Rattle.tool_work.specs.Files.{memory_limit, memory_read};

    type Value = Image;

    ghost role = { codes "memory" };

    ghost stage = { λ kind. memory_read kind.entry };

    ghost LIMIT = { memory_limit };

    const LIMIT: u64 = 1_048_576;

    fn role() -> &'static str {
        "memory"
    }

    #[tactic(auto, unfolding(crate::specs::Files::memory_read))]
    fn read(&self, alloc: Global, bytes: &[u8]) -> Result<Image, Stop> {
        match read_whole(alloc, self.entry, bytes) {
            Ok(image) => Ok(image),
            Err(MemError::Memory) => Err(Stop::Memory),
            Err(MemError::Refused { place, why }) => {
                Err(Stop::Refused(line_of_refusal("memory", memory_why(why), place)))
            }
        }
    }

    ghost fetched = { omega arith };
}
