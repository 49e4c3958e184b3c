// An assembled source.
use crate::symbols::Symbols;
use hart_memory::Image;

/// The image of a source, and its labels.
#[derive(Drop)]
pub struct Assembled {
    pub image: Image,
    pub symbols: Symbols,
}
