// How much stack a handler uses.

/// A handler that is entered at a level, and the bytes that it uses below its frame.
#[derive(Clone, Copy, Debug, PartialEq, Eq, Drop)]
pub struct Use {
    pub level: u8,
    pub uses: u32,
}
