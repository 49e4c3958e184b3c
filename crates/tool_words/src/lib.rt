// What a command line asks for: each command's words, as clap is told of them, and the order that they give.
#![tactic(auto)]

mod assemble_command;
mod assemble_order;
mod bound_command;
mod bound_order;
mod chain_command;
mod chain_order;
mod disassemble_command;
mod disassemble_order;
mod gen_command;
mod gen_order;
mod lint_command;
mod lint_order;
mod mem_command;
mod mem_order;
mod monitor_command;
mod monitor_order;
mod order;
mod order_reading;
mod run_command;
mod run_order;
mod unmem_command;
mod unmem_order;

pub use assemble_order::AssembleOrder;
pub use bound_order::BoundOrder;
pub use chain_command::dispatcher_named;
pub use chain_order::ChainOrder;
pub use disassemble_order::DisassembleOrder;
pub use gen_order::GenOrder;
pub use lint_order::LintOrder;
pub use mem_order::MemOrder;
pub use monitor_order::MonitorOrder;
pub use order::Order;
pub use order_reading::read_order;
pub use run_order::RunOrder;
pub use unmem_order::UnmemOrder;
