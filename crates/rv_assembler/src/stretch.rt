// Bytes in a row.

/// So many bytes from a place on.
#[derive(Clone, Copy, Debug, PartialEq, Eq, Drop)]
pub struct Stretch {
    pub base: u32,
    pub size: u32,
}
