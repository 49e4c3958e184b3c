// An input and its level.

/// An input whose handler the table names, and the level of its services.
#[derive(Clone, Copy, Debug, PartialEq, Eq, Drop)]
pub struct Pair {
    pub input: u16,
    pub level: u8,
}
