// A chain that words ask for.
use chain_moves::Dispatcher;

/// A chain that words ask for.
#[derive(Drop)]
pub struct ChainOrder<'a> {
    /// The image file's name.
    pub image: &'a str,
    /// The scenario file's name.
    pub scenario: &'a str,
    pub dispatcher: Dispatcher,
    /// The most steps that are made.
    pub bound: u64,
    /// Whether each step is told.
    pub trace: bool,
    /// Whether hardware-vectored inputs are served directly.
    pub direct: bool,
}
