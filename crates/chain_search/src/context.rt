// Where calls are made.

use hart_words::WantOfMemory;
use std::alloc::Global;

// The deepest calls that the search follows.
const MAX_CALLS: u32 = 16;

// The call that made a context: its address, and the context that it was made in.
#[derive(Clone, Copy, Drop)]
struct Call {
    site: u32,
    caller: usize,
    depth: u32,
}

/// The contexts of calls, by number. That of the handler itself is 0.
#[derive(Drop)]
pub struct Contexts {
    calls: Vec<Call>,
}

impl Contexts {
    /// That of the handler itself.
    pub fn new(alloc: Global) -> Result<Contexts, WantOfMemory> {
        let mut calls = Vec::new(alloc);
        calls.push(Call {
            site: 0,
            caller: 0,
            depth: 0,
        })?;
        Ok(Contexts { calls })
    }

    /// The context of a call. `None`: calls are too deep.
    pub fn called(&mut self, caller: usize, site: u32) -> Result<Option<usize>, WantOfMemory> {
        let depth = match self.calls.get(caller) {
            Some(call) => call.depth.saturating_add(1),
            None => MAX_CALLS,
        };
        for i in 1..self.calls.len() {
            if self.calls[i].site == site && self.calls[i].caller == caller {
                return Ok(Some(i));
            }
        }
        if depth >= MAX_CALLS {
            return Ok(None);
        }
        let context = self.calls.len();
        self.calls.push(Call {
            site,
            caller,
            depth,
        })?;
        Ok(Some(context))
    }

    /// The context that the call of one was made in.
    pub fn returned(&self, context: usize) -> usize {
        match self.calls.get(context) {
            Some(call) => call.caller,
            None => 0,
        }
    }
}
