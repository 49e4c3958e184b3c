// Why a table has no times.

use chain_flow::LintWhy;

/// The first of a table's words and handlers that is refused.
#[derive(Clone, Copy, Debug, PartialEq, Eq, Drop)]
pub enum TableFault {
    /// The word at this address isn't wholly in ROM, or has a byte in the slot.
    BadTable(u32),
    /// A handler is refused.
    Refused { why: LintWhy, at: u32 },
}
