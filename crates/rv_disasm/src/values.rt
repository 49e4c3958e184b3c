// What the operands of a line are printed from.

/// The fields of an instruction, by the places that the assembler reads them into; what a line lacks is 0.
#[derive(Clone, Copy, Debug, PartialEq, Eq, Drop)]
pub struct Values {
    pub rd: u8,
    pub rs1: u8,
    pub rs2: u8,
    pub csr: u16,
    pub number: u32,
}
