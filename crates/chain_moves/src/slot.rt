// The slot, and the frames that a dispatcher makes.

/// The slot's first address, where interrupts go.
pub const BASE: u32 = 0x40;

/// The address past the slot's last.
pub const SLOT_END: u32 = 0xC0;

/// Where a dispatcher calls a handler.
pub const CALL: u32 = 0x70;

/// Where a handler returns.
pub const BACK: u32 = 0x74;

/// The bytes of a frame.
pub const FRAME_SIZE: u32 = 32;
