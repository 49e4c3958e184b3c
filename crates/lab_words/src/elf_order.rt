// An ELF file whose image words ask for.

/// An ELF file whose image words ask for.
#[derive(Drop)]
pub struct ElfOrder<'a> {
    /// The ELF file's name.
    pub file: &'a str,
}
