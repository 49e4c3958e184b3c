// The addresses that are reached and not yet looked at, in rising order.
ghost use Rattle.std.specs.Prelude.{◌≡◌, length, OnOk, List, [], ◌∷◌};
ghost use Rattle.chain_flow.specs.Walk.{arrived};
ghost use Rattle.chain_flow.specs.Flow.{joined};

use crate::flow_state::Flow;
use std::alloc::AllocError;
use std::marker::Model;

/// An address that is reached, with what is known there so far.
#[derive(Drop)]
pub struct Reached {
    at: u32,
    flow: Flow,
}

impl Model for Reached {
    ghost use Rattle.chain_flow.specs.Walk.{Reached as ReachedView};

    ghost Value = { ReachedView };

    ghost view = { λ r. record { at = r.at; flow = r.flow } };
}

impl Reached {
    /// An address that is reached first.
    pub fn first(at: u32, flow: Flow) -> Reached
        ensures { result ≡ record { at = at; flow = flow } }
    {
        Reached { at, flow }
    }

    /// The address, and what is known there.
    pub fn parts(self) -> (u32, Flow)
        ensures { result ≡ (self.at, self.flow) }
    {
        (self.at, self.flow)
    }

    /// The address.
    pub fn place(&self) -> u32
        ensures { result ≡ self.now.at }
    {
        self.at
    }

    fn join(&mut self, flow: &Flow)
        ensures { self.new ≡ record self.old { flow = joined self.old.flow flow.now } }
    {
        self.flow.join(flow);
    }
}

/// One more arrival at an address.
pub fn arrive(pending: &mut Vec<Reached>, at: u32, flow: Flow) -> Result<(), AllocError>
    ensures ok { OnOk result (pending.new.items ≡ arrived at flow pending.old.items) }
{
    for i in 0..pending.len() {
        if pending[i].place() == at {
            pending[i].join(&flow);
            return Ok(());
        }
        if at < pending[i].place() {
            pending.insert(i, Reached { at, flow })?;
            return Ok(());
        }
    }
    pending.push(Reached { at, flow })?;
    Ok(())
}
