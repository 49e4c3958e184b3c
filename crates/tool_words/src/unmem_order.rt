// An image of a memory text that words ask for.

/// An image of a memory text that words ask for.
#[derive(Drop)]
pub struct UnmemOrder<'a> {
    /// The text file's name.
    pub memory: &'a str,
    /// The image's entry.
    pub entry: u32,
}
