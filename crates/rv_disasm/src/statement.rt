// What a line of a listing says.
use rv_encoding::Ins;
use rvc_encoding::Cins;

/// The entry, a new place, or what stands at the place: one byte, two, four, or an instruction of four bytes or of two.
#[derive(Clone, Copy, Debug, PartialEq, Eq, Drop)]
pub enum Statement {
    Entry(u32),
    Org(u32),
    Byte(u8),
    Half(u16),
    Word(u32),
    Long(Ins),
    Short(Cins),
}
