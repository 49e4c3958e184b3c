// The rows of the table.

/// The rows of the table of compressed instructions, by quadrant and function.
#[derive(Clone, Copy, Debug, PartialEq, Eq, Drop)]
pub enum CRow {
    Addi4spn,
    Lw,
    Sw,
    Nop,
    Addi,
    Jal,
    Li,
    Addi16sp,
    Lui,
    Srli,
    Srai,
    Andi,
    Sub,
    Xor,
    Or,
    And,
    J,
    Beqz,
    Bnez,
    Slli,
    Lwsp,
    Jr,
    Mv,
    Ebreak,
    Jalr,
    Add,
    Swsp,
}
