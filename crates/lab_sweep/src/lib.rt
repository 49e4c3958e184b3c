// What becomes of a chain where one event comes at another time.
#![tactic(auto)]

mod counts;
mod moving;
mod outcome;
mod outcomes;
mod progress;
mod sweep;
mod sweeping;
mod swept;
mod tally;
mod telling;
#[cfg(test)]
mod tests;
mod text_sink;

pub use counts::Counts;
pub use moving::move_event;
pub use outcomes::Outcomes;
pub use progress::Progress;
pub use sweep::Sweep;
pub use sweeping::sweep_counts;
pub use swept::Swept;
pub use tally::Tally;
pub use telling::put_outcomes;
pub use text_sink::TextSink;
