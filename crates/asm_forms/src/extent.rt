// What a line does to the place.

/// The place becomes another, stays while the line names the entry, or moves on over so many bytes.
#[derive(Clone, Copy, Debug, PartialEq, Eq, Drop)]
pub enum Extent {
    Org(u32),
    Entry,
    Takes(u32),
}
