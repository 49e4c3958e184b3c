// An ELF file whose names words ask for.

/// An ELF file whose names words ask for.
#[derive(Drop)]
pub struct NamesOrder<'a> {
    /// The ELF file's name.
    pub file: &'a str,
    /// Whether names of code alone are wanted.
    pub code: bool,
}
