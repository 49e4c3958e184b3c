// What the handlers in a table come to.

use chain_flow::LintWhy;

/// How much stack the handlers in a table use together, or the first that has none to tell.
#[derive(Clone, Copy, Debug, PartialEq, Eq, Drop)]
pub enum TableBound {
    /// So many bytes.
    Bound(u32),
    /// The word at this address isn't wholly in ROM, or has a byte in the slot.
    BadTable(u32),
    /// A handler is refused.
    Refused { why: LintWhy, at: u32 },
}
