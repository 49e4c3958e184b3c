// What stands at an operand's place.

/// What an operand is, and which field of the instruction it becomes.
#[derive(Clone, Copy, Debug, PartialEq, Eq, Drop)]
pub enum Field {
    /// A register; of a compressed instruction, its first.
    Rd,
    /// A register; of a compressed instruction, its second.
    Rs1,
    /// A register.
    Rs2,
    /// A control and status register by its name or number.
    Csr,
    /// A number below 32 in the place of `rs1`.
    Source,
    /// The set before a fence, in the place of `rs1`.
    Pred,
    /// The set after a fence, in the place of `rs2`.
    Succ,
    /// A number from minus this one to below it.
    Signed(u32),
    /// A number from 0 to below this one.
    Below(u32),
    /// The same, which is printed in so many hexadecimal digits.
    Digits(u32, u8),
    /// The upper 20 bits of a word, as a number.
    Upper,
    /// 32 bits, on which the places of later lines depend.
    Amount,
    /// 32 bits.
    Word,
    /// A label, for its address.
    Label,
    /// 32 bits, or a label for its address.
    Address,
    /// An address or a label, for the distance to it.
    Target,
}
