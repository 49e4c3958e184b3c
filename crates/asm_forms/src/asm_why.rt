// Why a line is refused.
use asm_text::LexFault;

/// What is wrong with a line, or with the whole source at line 0.
#[derive(Clone, Copy, Debug, PartialEq, Eq, Drop)]
pub enum AsmWhy {
    /// A byte that begins no token, a bad number, or too many tokens.
    Lex(LexFault),
    /// What stands where a directive or an instruction is due is none.
    UnknownMnemonic,
    /// The operands have another form, a number is too great for its field, or the entry was named before.
    BadOperands,
    /// No line defines the label.
    UnknownLabel,
    /// An earlier line defines the label.
    DoubleLabel,
    /// A target is at an odd distance or too far away.
    OutOfReach,
    /// A byte would lie outside the two memories, or a segment would run past its memory's end.
    OutsideMemory,
    /// A byte would lie where one lies already.
    Overlap,
    /// No line names the entry; at line 0.
    NoEntry,
    /// The source is too long, at line 0; or a 65th segment begins.
    TooLarge,
}
