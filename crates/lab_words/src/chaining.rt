// How a board is run under a dispatcher.
use chain_moves::Dispatcher;

/// How a board is run under a dispatcher.
#[derive(Clone, Copy, Debug, PartialEq, Eq, Drop)]
pub struct Chaining {
    pub dispatcher: Dispatcher,
    /// Whether hardware-vectored inputs are served directly.
    pub direct: bool,
}
