// The registers of the interrupt controller, a CLIC.
#![tactic(auto)]

mod attribute;
mod clic;
mod clic_byte;
pub mod laws;
mod level;
mod shape;
#[cfg(test)]
mod tests;

pub use clic::Clic;
pub use clic_byte::{ClicByte, input_of};
pub use shape::Shape;
