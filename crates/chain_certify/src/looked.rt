// What becomes of an instruction.
ghost use Rattle.std.specs.Prelude.{◌≡◌, [], None, Some};
ghost use Rattle.chain_certify.specs.Rules.{Refused, Passed};

use crate::flow_state::Flow;
use chain_flow::LintWhy;
use std::alloc::Global;
use std::marker::Model;

/// Where an instruction goes on, and what is known there.
#[derive(Drop)]
pub struct Next {
    pub at: u32,
    pub flow: Flow,
}

impl Model for Next {
    ghost use Rattle.chain_certify.specs.Rules.{Next as NextView};

    ghost Value = { NextView };

    ghost view = { λ n. record { at = n.at; flow = n.flow } };
}

/// What was found at a node: the first rule that holds, or where it goes on.
#[derive(Drop)]
pub struct Look {
    pub why: Option<LintWhy>,
    pub next: Vec<Next>,
}

impl Model for Look {
    ghost use Rattle.chain_certify.specs.Rules.{Looked, looked_by};

    ghost Value = { Looked };

    ghost view = { λ l. looked_by l.why l.next.items };
}

impl Look {
    /// A rule holds.
    pub fn refused(alloc: Global, why: LintWhy) -> Look
        ensures { result ≡ Refused why }
    {
        Look {
            why: Some(why),
            next: Vec::new(alloc),
        }
    }

    /// No rule holds.
    pub fn passed(next: Vec<Next>) -> Look
        ensures { result ≡ Passed next.items }
    {
        Look { why: None, next }
    }
}
