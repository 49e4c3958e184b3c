// What the tests of an instruction of a direct service come to.
use chain_moves::Verdict;

/// Whether the instruction is the MRET that ends the service, or else what a body's tests say of it.
#[derive(Clone, Copy, Debug, PartialEq, Eq, Drop)]
pub enum DirectVerdict {
    /// No test holds, and it is MRET.
    Ends,
    /// A test holds, or it may be tried.
    Goes(Verdict),
}
