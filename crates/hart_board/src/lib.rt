// The board: the hart with its memory, the interrupt controller and a device; its step, and a run
// with a report.
#![tactic(auto)]

mod ahead;
mod arrivals;
mod board;
mod code;
mod event;
mod events;
mod known;
pub mod laws;
mod outside;
mod prepared;
mod region;
mod report;
mod rest;
mod run_end;
mod running;
#[cfg(test)]
mod tests;
mod trap;
mod what;

pub use ahead::Ahead;
pub use arrivals::{take_due, take_events};
pub use board::Board;
pub use event::Event;
pub use events::Events;
pub use hart_report::{DeadBytes, NoDeadBytes, Stepped, put_output, put_ram};
pub use outside::FIRST_DEVICE_INPUT;
pub use prepared::Prepared;
pub use region::{CLIC_BASE, DEVICE_BASE};
pub use run_end::RunEnd;
pub use running::run;
pub use trap::{FETCH_FAULT, ILLEGAL_INSTRUCTION};
pub use what::What;
