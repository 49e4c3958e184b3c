// Why no certificate was found.

use chain_flow::LintWhy;

/// The rule that refuses at the place where a search stopped.
#[derive(Clone, Copy, Debug, PartialEq, Eq, Drop)]
pub struct Refusal {
    pub why: LintWhy,
    pub at: u32,
}
