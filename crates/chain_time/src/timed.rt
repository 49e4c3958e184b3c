// An input of a table, with what its services take.

/// An input whose services have a level, the address of its handler, the longest way through that
/// handler in instructions, and how often it comes within one burst at most.
#[derive(Clone, Copy, Debug, PartialEq, Eq, Drop)]
pub struct Timed {
    pub input: u16,
    pub level: u8,
    pub handler: u32,
    pub path: u32,
    pub count: u16,
}
