// A trace that words ask for.
use crate::chaining::Chaining;

/// A trace that words ask for.
#[derive(Drop)]
pub struct TraceOrder<'a> {
    /// The image file's name.
    pub image: &'a str,
    /// The scenario file's name.
    pub scenario: &'a str,
    /// The most steps that are made.
    pub bound: u64,
    /// Under a dispatcher, or else as `run` runs it.
    pub chaining: Option<Chaining>,
    /// The name of a file of names.
    pub names: Option<&'a str>,
}
