// A bound of the stack that words ask for.
use chain_lint::Pairs;

/// A bound of the stack that words ask for.
#[derive(Drop)]
pub struct BoundOrder<'a> {
    /// The image file's name.
    pub image: &'a str,
    /// The first address of the stack region.
    pub low: u64,
    /// The address behind it.
    pub high: u64,
    /// The table's number, whose bits 5:0 don't count.
    pub table: u64,
    /// The inputs with their levels.
    pub pairs: Pairs,
}
