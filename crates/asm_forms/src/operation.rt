// What a line does once its operands are known.
use rv_encoding::Ins;
use rvc_encoding::Cins;

/// A change of the place, the entry, or bytes at the place.
#[derive(Clone, Copy, Debug, PartialEq, Eq, Drop)]
pub enum Operation {
    Org(u32),
    Entry(u32),
    PutsByte(u8),
    PutsHalf(u16),
    PutsWord(u32),
    PutsZeros(u32),
    Long(Ins),
    /// Two instructions, one after the other.
    Twice(Ins, Ins),
    Compressed(Cins),
}
