// An assembly that words ask for.

/// An assembly that words ask for.
#[derive(Drop)]
pub struct AssembleOrder<'a> {
    /// The source file's name.
    pub source: &'a str,
    /// Whether the labels are written in place of the image.
    pub symbols: bool,
}
