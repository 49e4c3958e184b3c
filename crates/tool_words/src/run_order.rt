// A run that words ask for.

/// A run that words ask for.
#[derive(Drop)]
pub struct RunOrder<'a> {
    /// The image file's name.
    pub image: &'a str,
    /// The scenario file's name.
    pub scenario: &'a str,
    /// The most steps that are made.
    pub bound: u64,
    /// Whether each step is told.
    pub trace: bool,
}
