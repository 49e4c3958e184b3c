// What is wrong with a file that is no image.

/// What is wrong at a place of the file.
#[derive(Clone, Copy, Debug, PartialEq, Eq, Drop)]
pub enum ImageWhy {
    /// The first four bytes aren't `CLC1`.
    BadMagic,
    /// The file ends within a field, or within a segment's bytes.
    Truncated,
    /// A segment has no byte, or its bytes aren't wholly in ROM or wholly in RAM.
    OutsideMemory,
    /// A segment has a byte in common with an earlier one.
    Overlap,
    /// There are more segments than an image may have.
    TooMany,
    /// Bytes follow the last segment.
    Trailing,
}
