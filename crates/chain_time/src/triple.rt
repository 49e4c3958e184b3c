// An input, its level, and how often it comes.

/// An input whose handler the table names, the level of its services, and how often it comes within one
/// burst at most.
#[derive(Clone, Copy, Debug, PartialEq, Eq, Drop)]
pub struct Triple {
    pub input: u16,
    pub level: u8,
    pub count: u16,
}
