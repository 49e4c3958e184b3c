// What becomes of a round.
use chain_moves::Broken;

/// A move, or a Leave with the Enter that it is fused with.
#[derive(Clone, Copy, Debug, PartialEq, Eq, Drop)]
pub enum Round {
    /// It was made, in so many steps.
    Made(u64),
    /// A test holds, after so many steps.
    Failed(Broken, u64),
    /// The board has halted with no service live.
    Ended,
    /// The steps that are left don't reach to its end. They were made.
    Spent,
}
