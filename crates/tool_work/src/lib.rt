// What each command does with its files, and what it writes.
#![tactic(auto)]

mod agreeing;
mod assembling;
mod bench;
mod bounding;
mod chain_running;
mod chaining;
mod checking;
mod disassembling;
mod gen_events;
mod gen_image;
mod generating;
mod image_file;
mod linting;
mod mem_reading;
mod mem_writing;
mod memory_file;
mod monitoring;
mod prepared;
mod running;
mod scenario_file;
mod script_file;
mod source_file;
mod stack_region;

pub use assembling::assemble_file;
pub use bench::Bench;
pub use bounding::bound_file;
pub use chain_running::run_chain;
pub use chaining::{board_with, chain_files, chain_image, line_of_slot, status_of_end};
pub use disassembling::disassemble_file;
pub use generating::generate;
pub use image_file::{ImageFile, put_image};
pub use linting::lint_file;
pub use mem_reading::unmem_file;
pub use mem_writing::mem_file;
pub use monitoring::monitor_files;
pub use running::{new_board, run_files, run_image};
pub use scenario_file::ScenarioFile;
