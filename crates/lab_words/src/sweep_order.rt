// A sweep that words ask for.
use crate::chaining::Chaining;
use crate::part::Part;

/// A sweep that words ask for.
#[derive(Drop)]
pub struct SweepOrder<'a> {
    /// The image file's name.
    pub image: &'a str,
    /// The scenario file's name.
    pub scenario: &'a str,
    pub chaining: Chaining,
    /// The most steps that each chain makes.
    pub bound: u64,
    /// Which event of the scenario is moved. 1 is the first.
    pub event: u32,
    /// The first count that it is moved to, and the last.
    pub from: u32,
    pub to: u32,
    /// Of the counts those of this part are taken.
    pub part: Part,
}
