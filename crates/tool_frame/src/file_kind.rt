// Kinds of files.
ghost use Rattle.std.specs.Prelude.{◌≡◌, ℕ, ◌≤◌, List, length, Result};
ghost use Rattle.tool_frame.specs.Files.{AnswersStage};

use crate::stop::Stop;
use std::alloc::Global;

/// A kind of file that commands read, with what its reader has to know besides the bytes.
pub trait FileKind {
    /// What a file gives.
    type Value;

    /// What it is called in the line of a refusal.
    ghost role: { List ℕ };

    /// What the bytes of a file that isn't too long give, or the line of its refusal.
    ghost stage: { Self → List ℕ → Result Self.Value (List ℕ) };

    /// The greatest length of a file.
    ghost LIMIT: { ℕ };

    const LIMIT: u64;

    fn role() -> &'static str
        ensures text { result.now ≡ role }
        ensures short { length result.now ≤ 13 };

    fn read(&self, alloc: Global, bytes: &[u8]) -> Result<Self::Value, Stop>
        requires { length bytes.now ≤ LIMIT }
        ensures { AnswersStage result (stage self.now bytes.now) };

    ghost fetched: { LIMIT ≤ 16_777_216 };
}
