// What marks a live service.

/// A live service: its level, its frame's address, and the registers as its handler began.
#[derive(Clone, Copy, Default, Drop)]
pub struct Mark {
    pub level: u8,
    pub frame: u32,
    pub kept: [u32; 32],
}
