// What a client changes.
use hart_board::What;

/// A change of the board: the address of the next instruction, a byte of memory, or what comes from
/// outside.
#[derive(Clone, Copy, Debug, PartialEq, Eq, Drop)]
pub enum Change {
    Pc(u32),
    Byte { at: u32, value: u8 },
    Outside(What),
}
