// The lines of a trace and of a report, by the parts that they tell of.
#![tactic(auto)]

mod contents;
mod csrs;
mod dead_bytes;
mod ends;
mod hart;
mod stepped;
mod trace;

pub use contents::{put_output, put_ram};
pub use csrs::{put_csrs, put_mstatus};
pub use dead_bytes::{DeadBytes, NoDeadBytes};
pub use ends::{put_budget_end, put_halt_end, put_steps, put_vector_end};
pub use hart::{put_hart, put_pc_and_registers};
pub use stepped::Stepped;
pub use trace::{put_step, put_told};
