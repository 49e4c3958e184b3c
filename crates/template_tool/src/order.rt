// What the words ask for.
use chain_moves::Dispatcher;

/// A run or a chain that words ask for.
#[derive(Drop)]
pub struct Order<'a> {
    /// The dispatcher of a chain; a run has none.
    pub under: Option<Dispatcher>,
    /// The image file's name.
    pub image: &'a str,
    /// The scenario file's name.
    pub scenario: &'a str,
    /// The most steps that are made.
    pub bound: u64,
}
