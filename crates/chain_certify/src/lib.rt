// The checker of handlers that loop, branch and call: a certificate of nodes, each of an address and of what is
// known there, and what one that is accepted means.
#![tactic(auto)]

mod checking;
mod flow_state;
pub mod laws;
mod looked;
mod looking;
mod node;
mod operations;
mod rules;
mod sides;
mod stack_word;
mod stack_words;
mod transfer;
mod value;

pub use checking::checked;
pub use flow_state::Flow;
pub use looked::{Look, Next};
pub use looking::look;
pub use node::Node;
pub use stack_word::StackWord;
pub use stack_words::find;
pub use value::{Value, ranged};
