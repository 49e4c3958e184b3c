// Names of addresses: their lines, and a table that is read from them.
#![tactic(auto)]

pub mod laws;
mod name;
mod name_text;
mod names;
mod names_error;
mod names_reading;
mod names_why;
#[cfg(test)]
mod tests;

pub use name::Name;
pub use name_text::{are_name_bytes, put_name, text_of_names};
pub use names::Names;
pub use names_error::NamesError;
pub use names_reading::{MAX_NAMES, read_names};
pub use names_why::NamesWhy;
