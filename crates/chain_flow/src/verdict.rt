// What the checker answers.

use crate::lint_why::LintWhy;

/// Whether a handler is accepted.
#[derive(Clone, Copy, Debug, PartialEq, Eq, Drop)]
pub enum Verdict {
    /// It is, and it uses so many bytes below its frame.
    Yes { uses: u32 },
    /// It isn't, by the first rule that holds at the first address where one does.
    No { why: LintWhy, at: u32 },
}
