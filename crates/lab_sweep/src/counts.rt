// Counts at which an event comes.

/// The counts from `from` to `to`, both included, that leave `part` when they are divided by `parts`.
#[derive(Clone, Copy, Debug, PartialEq, Eq, Drop)]
pub struct Counts {
    pub from: u64,
    pub to: u64,
    pub part: u64,
    pub parts: u64,
}
