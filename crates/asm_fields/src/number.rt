// The number of a line, which may wait for a label.

/// A number as it stands, a label's address, or the distance to an address or to a label.
#[derive(Clone, Copy, Drop)]
pub enum Number<'a> {
    Given(u32),
    Absolute(&'a str),
    Near(u32),
    NearLabel(&'a str),
}
