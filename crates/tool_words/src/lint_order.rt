// A verdict that words ask for.

/// A verdict on a handler that words ask for.
#[derive(Drop)]
pub struct LintOrder<'a> {
    /// The image file's name.
    pub image: &'a str,
    /// The handler's number, whose bit 0 doesn't count.
    pub handler: u64,
    /// The first address of the stack region.
    pub low: u64,
    /// The address behind it.
    pub high: u64,
}
