// A stack region.

/// The addresses from low to high - 1.
#[derive(Clone, Copy, Debug, PartialEq, Eq, Drop)]
pub struct Region {
    pub low: u32,
    pub high: u32,
}
