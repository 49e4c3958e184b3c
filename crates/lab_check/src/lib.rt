// The lines that tell what is known of the handlers in a table by their certificates.
#![tactic(auto)]

mod lines;
mod parts;
mod table;
mod why_names;

pub use table::put_table;
