// The times of a table.
ghost use Rattle.std.specs.Prelude.{◌≡◌, ◌≤◌, ◌<◌, ◌++◌, ◌∷◌, [], length, OnOk};
ghost use Rattle.std.specs.List.{All};
ghost use Rattle.chain_time.specs.Counts.{IsTimed, response as response_of, latency as latency_of, burst as burst_of};
ghost use Rattle.chain_time.specs.Looping.{looping_burst as looping_burst_of};

use crate::bound::{LEAVE_COST, time_bound};
use crate::looping::{SAVING, looping_bound, lowest};
use crate::timed::Timed;
use hart_words::WantOfMemory;
use std::alloc::Global;
use std::marker::Model;

/// How many inputs a table of times has at most.
pub const MAX_TIMES: usize = 1024;

/// Inputs with what their services take, seen as a list. No way is longer than ROM, and there are at most
/// 1,024 of them. All times are steps of the board, and hold under either dispatcher but for one that says so.
#[derive(Drop)]
pub struct Times {
    rows: Vec<Timed>,
}

impl Model for Times {
    ghost use Rattle.std.specs.Prelude.{◌≤◌, List, length};
    ghost use Rattle.std.specs.List.{All};
    ghost use Rattle.chain_time.specs.Counts.{IsTimed};
    ghost use Rattle.chain_time.specs.declared.timed.Timed.{Timed};

    ghost Value = { List Timed };

    ghost view = { λ t. t.rows.items };

    ghost invariant = { λ t. All IsTimed t.rows.items × (length t.rows.items ≤ 1024) };
}

impl Times {
    /// No input.
    pub fn new(alloc: Global) -> Times
        ensures { result ≡ [] }
    {
        Times {
            rows: Vec::new(alloc),
        }
    }

    /// Adds an input at the end.
    pub fn push(&mut self, row: Timed) -> Result<(), WantOfMemory>
        requires way { IsTimed row }
        requires room { length self.old < MAX_TIMES }
        ensures { OnOk result (self.new ≡ self.old ++ row ∷ []) }
    {
        Ok(self.rows.push(row)?)
    }

    /// The inputs, in the order of the table.
    pub fn rows(&self) -> &[Timed]
        ensures { result.now ≡ self.now }
    {
        &self.rows
    }

    /// How long until the service of an input has ended.
    pub fn response(&self, row: &Timed) -> u64
        ensures { result ≡ response_of self.now row.now }
    {
        time_bound(&self.rows, row.level)
    }

    /// How long until the handler of an input begins.
    pub fn latency(&self, row: &Timed) -> u64
        ensures { result ≡ latency_of self.now row.now }
    {
        self.response(row)
            .saturating_sub(u64::from(row.path) + LEAVE_COST)
    }

    /// How long the foreground stands still, under either dispatcher.
    pub fn burst(&self) -> u64
        ensures { result ≡ burst_of self.now }
    {
        time_bound(&self.rows, 0)
    }

    /// How long it stands still under the looping dispatcher.
    pub fn looping_burst(&self) -> u64
        ensures { result ≡ looping_burst_of self.now }
    {
        let fused = looping_bound(&self.rows, lowest(&self.rows)) + SAVING;
        self.burst().min(fused)
    }
}
