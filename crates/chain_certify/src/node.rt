// A node of a certificate.

use crate::flow_state::Flow;
use std::marker::Model;

/// What is known at an address, and the places in the certificate where it goes on, in the order of the instruction's
/// own ways on.
#[derive(Drop)]
pub struct Node {
    pub at: u32,
    pub flow: Flow,
    pub hints: Vec<u32>,
}

impl Model for Node {
    ghost use Rattle.chain_certify.specs.Check.{Node as NodeView};

    ghost Value = { NodeView };

    ghost view = { λ n. record { at = n.at; flow = n.flow; hints = n.hints.items } };
}
