// What a command line of the second program asks for: each command's words, as clap is told of them, and the order that
// they give.
#![tactic(auto)]

mod chaining;
mod elf_command;
mod elf_order;
mod names_command;
mod names_order;
mod order;
mod order_reading;
mod part;
mod part_reading;
#[cfg(test)]
mod part_tests;
mod sweep_command;
mod sweep_order;
mod trace_command;
mod trace_order;

pub use chaining::Chaining;
pub use elf_order::ElfOrder;
pub use names_order::NamesOrder;
pub use order::Order;
pub use order_reading::read_order;
pub use part::Part;
pub use sweep_order::SweepOrder;
pub use trace_order::TraceOrder;
