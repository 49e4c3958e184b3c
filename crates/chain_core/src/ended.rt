// How a chain ended, and when.
use crate::chain_end::ChainEnd;

/// An end, and the steps after which the board then stands.
#[derive(Clone, Copy, Debug, PartialEq, Eq, Drop)]
pub struct Ended {
    pub end: ChainEnd,
    pub steps: u64,
}
