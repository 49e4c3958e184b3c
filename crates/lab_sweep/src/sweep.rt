// What a sweep is asked for.
use crate::counts::Counts;
use chain_moves::Dispatcher;

/// The event at a place of a scenario, of which the first is 0, comes at each of some counts, in chains
/// with this dispatcher, of at most so many steps, with direct services or without.
#[derive(Clone, Copy, Debug, PartialEq, Eq, Drop)]
pub struct Sweep {
    pub dispatcher: Dispatcher,
    pub direct: bool,
    pub bound: u64,
    pub place: usize,
    pub counts: Counts,
}
