// A disassembly that words ask for.

/// A disassembly that words ask for.
#[derive(Drop)]
pub struct DisassembleOrder<'a> {
    /// The image file's name.
    pub image: &'a str,
}
