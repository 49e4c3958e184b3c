// A script that words ask for.

/// A script that words ask for.
#[derive(Drop)]
pub struct MonitorOrder<'a> {
    /// The image file's name.
    pub image: &'a str,
    /// The script file's name.
    pub script: &'a str,
}
