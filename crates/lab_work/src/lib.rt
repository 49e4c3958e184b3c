// What each command of the second program does with its files, and what it writes.
#![tactic(auto)]

mod elf_file;
mod imaging;
mod listed_names;
mod names_file;
mod naming;
mod sweeping;
mod symbols_file;
mod tracing;

pub use imaging::image_of_file;
pub use naming::names_of_file;
pub use sweeping::sweep_files;
pub use tracing::trace_files;
