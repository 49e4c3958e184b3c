// The packets of gdb.
use crate::point::Point;
use hart_words::Text;

/// What gdb asks for.
#[derive(Drop)]
pub enum Packet {
    /// Which packets there are.
    Supported,
    /// A piece of the text that describes the registers.
    Features { offset: u32, length: u32 },
    /// A piece of another text, or none that could be.
    NoFeatures,
    /// Why it stopped.
    Why,
    ReadRegisters,
    ReadRegister(u32),
    WriteRegister { number: u32, value: u32 },
    ReadMemory { at: u32, length: u32 },
    WriteMemory { at: u32, bytes: Text },
    Step,
    Continue,
    BackStep,
    BackContinue,
    Insert(Point),
    Remove(Point),
    /// A command of `monitor`.
    Monitor(Text),
    Detach,
    Kill,
    /// It begins as one of these, and goes on in another form.
    Malformed,
    /// It is none of these.
    Other,
}
