// What is known where the search has come.
ghost use Rattle.std.specs.Prelude.{◌<◌, length, IfSome};

use crate::joins::{has_same_numbers, joined_flow};
use chain_certify::Flow;
use hart_words::WantOfMemory;
use std::alloc::{AllocError, Global};

// How often more than its flows an address is visited before a flow there is widened.
const VISITS: u32 = 20;

// A flow, and whether its instruction is still to be looked at.
#[derive(Drop)]
struct Kept {
    flow: Flow,
    is_new: bool,
}

/// An address in one context of calls, with the flows that are kept apart there.
#[derive(Drop)]
pub struct Place {
    pub at: u32,
    pub context: usize,
    visits: u32,
    kept: Vec<Kept>,
}

// The first flow whose numbers are the same.
fn alike(kept: &[Kept], flow: &Flow) -> Option<usize>
    ensures { IfSome result (λ i. i < length kept.now) }
{
    for i in 0..kept.len() {
        if has_same_numbers(flow, &kept[i].flow) {
            return Some(i);
        }
    }
    None
}

impl Place {
    /// Nothing came there so far.
    pub fn new(alloc: Global, at: u32, context: usize) -> Place {
        Place {
            at,
            context,
            visits: 0,
            kept: Vec::new(alloc),
        }
    }

    /// How many flows are kept apart.
    pub fn len(&self) -> usize {
        self.kept.len()
    }

    /// The flow at a place of the list.
    pub fn get(&self, i: usize) -> Option<&Flow> {
        match self.kept.get(i) {
            Some(kept) => Some(&kept.flow),
            None => None,
        }
    }

    /// A flow that is still to be looked at, which it no longer is then.
    pub fn take_new(&mut self, alloc: Global) -> Result<Option<Flow>, AllocError> {
        for i in 0..self.kept.len() {
            if self.kept[i].is_new {
                self.kept[i].is_new = false;
                return Ok(Some(self.kept[i].flow.copy(alloc)?));
            }
        }
        Ok(None)
    }

    fn has(&self, flow: &Flow) -> bool {
        for kept in &self.kept {
            if flow.is_below(&kept.flow) {
                return true;
            }
        }
        false
    }

    // All that is kept, as one flow.
    fn merged(&mut self, alloc: Global, flow: Flow) -> Result<Flow, AllocError> {
        let mut all = flow;
        for i in 0..self.kept.len() {
            all = joined_flow(alloc, &self.kept[i].flow, &all, false)?;
        }
        self.kept.clear();
        Ok(all)
    }

    fn keep(&mut self, flow: Flow) -> Result<(), WantOfMemory> {
        self.kept.push(Kept { flow, is_new: true })?;
        Ok(())
    }

    /// One more flow comes there, where so many may be kept apart. Whether there is something new to look at.
    pub fn arrive(&mut self, alloc: Global, flow: Flow, limit: u32) -> Result<bool, WantOfMemory> {
        if self.has(&flow) {
            return Ok(false);
        }
        self.visits = self.visits.saturating_add(1);
        let widens = self.visits > limit.saturating_add(VISITS);
        if let Some(i) = alike(&self.kept, &flow) {
            let joined = joined_flow(alloc, &flow, &self.kept[i].flow, widens)?;
            self.kept[i] = Kept {
                flow: joined,
                is_new: true,
            };
            return Ok(true);
        }
        if self.kept.len() >= limit as usize {
            if let Some(last) = self.kept.pop() {
                let old = self.merged(alloc, last.flow)?;
                self.keep(joined_flow(alloc, &flow, &old, widens)?)?;
                return Ok(true);
            }
        }
        self.keep(flow)?;
        Ok(true)
    }
}
