// Ends of a chain.

use chain_moves::Broken;

/// How a chain ends.
#[derive(Clone, Copy, Debug, PartialEq, Eq, Drop)]
pub enum ChainEnd {
    /// The board has halted, and no service is live.
    Done {
        steps: u64,
        bodies: u64,
        services: u64,
    },
    /// The bound on steps is reached.
    BudgetSpent,
    /// The convention is broken after so many bodies.
    Broken {
        kind: Broken,
        bodies: u64,
    },
    /// The sink failed.
    SinkFailed,
}
