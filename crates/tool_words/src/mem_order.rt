// A memory text that words ask for.

/// A memory text that words ask for.
#[derive(Drop)]
pub struct MemOrder<'a> {
    /// The image file's name.
    pub image: &'a str,
}
