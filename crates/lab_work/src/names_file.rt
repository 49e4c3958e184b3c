// Files of names.
ghost use Rattle.std.specs.Prelude.{◌≡◌, ◌≤◌, length};
ghost use Rattle.lab_work.specs.Files.{names_why};

use lab_names::{Names, NamesError, NamesWhy, read_names};
use std::alloc::Global;
use tool_frame::{FileKind, Stop, line_of_refusal};

/// Files of names: each gives a table.
#[derive(Drop)]
pub struct NamesFile;

fn names_why(why: NamesWhy) -> &'static str
    ensures text { result.now ≡ names_why why }
    ensures short { length result.now ≤ 13 }
{
    match why {
        NamesWhy::BadLine => "BadLine",
        NamesWhy::TooMany => "TooMany",
    }
}

impl FileKind for NamesFile {
    ghost use Rattle.std.specs.Prelude.{codes};
    ghost use Rattle.std.proofs.Common.{arith};
    ghost use Rattle.lab_work.specs.Files.{names_limit, names_read};

    type Value = Names;

    ghost role = { codes "names" };

    ghost stage = { λ _. names_read };

    ghost LIMIT = { names_limit };

    const LIMIT: u64 = 4_194_304;

    fn role() -> &'static str {
        "names"
    }

    #[tactic(auto, unfolding(crate::specs::Files::names_read))]
    fn read(&self, alloc: Global, bytes: &[u8]) -> Result<Names, Stop> {
        match read_names(alloc, bytes) {
            Ok(names) => Ok(names),
            Err(NamesError::Memory) => Err(Stop::Memory),
            Err(NamesError::Refused { line, why }) => {
                Err(Stop::Refused(line_of_refusal("names", names_why(why), line)))
            }
        }
    }

    ghost fetched = { omega arith };
}
