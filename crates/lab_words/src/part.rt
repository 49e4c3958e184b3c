// A part of many.

/// Of numbers those that are `number` modulo `parts`.
#[derive(Clone, Copy, Debug, PartialEq, Eq, Drop)]
pub struct Part {
    /// Below `parts`.
    pub number: u32,
    /// At least 1.
    pub parts: u32,
}
