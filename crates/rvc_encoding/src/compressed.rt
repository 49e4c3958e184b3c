// Compressed instructions, as their fields.
use crate::row::CRow;

/// A compressed instruction: its row, and that row's fields.
///
/// `a` is the row's first register and `b` its second, each as a full number; `imm` is its immediate,
/// sign-extended to 32 bits. What a row lacks is 0.
#[derive(Clone, Copy, Debug, PartialEq, Eq, Drop)]
pub struct Cins {
    pub row: CRow,
    pub a: u8,
    pub b: u8,
    pub imm: u32,
}
