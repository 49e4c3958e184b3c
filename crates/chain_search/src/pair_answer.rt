// What is told of a pair.

use chain_flow::LintWhy;

/// What is told of an input and its level.
#[derive(Clone, Copy, Debug, PartialEq, Eq, Drop)]
pub enum PairAnswer {
    /// The table's word at this address isn't wholly in ROM, or has a byte in the slot.
    BadTable(u32),
    /// The handler has a certificate, and uses so many bytes below its frame.
    Accepted(u32),
    /// No certificate was found.
    Refused { why: LintWhy, at: u32 },
}
