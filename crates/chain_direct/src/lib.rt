// Chains beside which the most urgent inputs have vectors of their own: the servicing machine with
// direct services.
#![tactic(auto)]

mod direct_chaining;
mod direct_judging;
mod direct_rounds;
mod direct_telling;
mod direct_verdict;
mod direct_watch;
pub mod laws;
#[cfg(test)]
mod tests;

pub use direct_chaining::chain_direct;
pub use direct_watch::DirectWatch;
