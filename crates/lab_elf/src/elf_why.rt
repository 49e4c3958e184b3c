// What is wrong with a file that gives no image, or no names.

/// What is wrong at a place of the file.
#[derive(Clone, Copy, Debug, PartialEq, Eq, Drop)]
pub enum ElfWhy {
    /// The file ends within a header, or within what a header says of it.
    Truncated,
    /// The first four bytes aren't those of an ELF file.
    BadMagic,
    /// It isn't of 32 bits.
    BadClass,
    /// It hasn't the lowest byte of a number first.
    BadOrder,
    /// It is no executable: an object file, or a shared one.
    NotLinked,
    /// It is for another machine than RISC-V.
    NotRiscV,
    /// Headers, or symbols, have another size than the standard's.
    BadHeader,
    /// It has no section headers.
    NoSections,
    /// More sections are loaded, or more symbols written, than there may be.
    TooMany,
    /// No program header holds a section that is loaded.
    Unplaced,
    /// A section isn't wholly in ROM or wholly in RAM.
    OutsideMemory,
    /// A section has an address in common with an earlier one.
    Overlap,
    /// It has no symbol table.
    NoSymbols,
    /// The symbol table's strings aren't a section of strings.
    BadLink,
    /// A symbol's name is too long, doesn't end, or has a byte that no name has.
    BadName,
}
