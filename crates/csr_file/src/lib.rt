// The control and status registers.
#![tactic(auto)]

mod csrs;
pub mod laws;
#[cfg(test)]
mod tests;

pub use csrs::Csrs;
