// A sink in memory, of a fixed room.
ghost use Rattle.std.specs.Prelude.{◌≡◌, OnOk, OnErr, IfOk, is_ok};
ghost use Rattle.board_outside.specs.Calls.{with_failing};
ghost use Rattle.board_outside.specs.Sink.{Writes};
ghost use Rattle.board_outside.specs.MemorySink.{empty_sink, sink_view, takes_all, after_put};

use crate::calls::Calls;
use crate::sink::{Sink, SinkFault};
use hart_words::WantOfMemory;
use std::alloc::Global;
use std::marker::Model;

/// Bytes in memory. It tells them, and its room where no call is to fail.
#[derive(Drop)]
pub struct MemorySink {
    bytes: Vec<u8>,
    room: usize,
    calls: Calls,
    faults: u64,
}

impl Model for MemorySink {
    ghost use Rattle.std.specs.Prelude.{◌+◌, ◌≤◌, vec_len, vec_capacity};
    ghost use Rattle.board_outside.specs.MemorySink.{MemorySinkState};

    ghost Value = { MemorySinkState };

    ghost view = { λ s. record { written = s.bytes.items; room = s.room; calls = s.calls; faults = s.faults } };

    ghost invariant = { λ s. vec_len s.bytes + s.room ≤ vec_capacity s.bytes };
}

impl MemorySink {
    /// Nothing written, and room for that many bytes.
    pub fn new(alloc: Global, room: usize) -> Result<MemorySink, WantOfMemory>
        ensures { IfOk result (λ s. s ≡ empty_sink room) }
    {
        Ok(MemorySink {
            bytes: Vec::with_capacity(alloc, room)?,
            room,
            calls: Calls::new(alloc),
            faults: 0,
        })
    }

    /// The put of that number fails, the first being 1. Numbers stop at their last value.
    pub fn fail_at(&mut self, call: u64) -> Result<(), WantOfMemory>
        ensures ok { OnOk result (self.new ≡ record self.old { calls = with_failing self.old.calls call }) }
        ensures err { OnErr result (self.new ≡ self.old) }
    {
        self.calls.fail_at(call)
    }

    /// What was written.
    pub fn bytes(&self) -> &[u8]
        ensures { result.now ≡ self.now.written }
    {
        &self.bytes
    }
}

impl Sink for MemorySink {
    ghost told = { λ s. sink_view s };

    fn put(&mut self, bytes: &[u8]) -> Result<(), SinkFault>
        ensures writes { Writes (is_ok result) (sink_view self.old) (sink_view self.new) bytes.now }
        ensures after { self.new ≡ after_put self.old bytes.now }
        ensures answer { is_ok result ≡ takes_all self.old bytes.now }
    {
        if self.calls.is_to_fail() {
            self.faults = self.faults.saturating_add(1);
            return Err(SinkFault::Failed);
        }
        let taken = bytes.len().min(self.room);
        let _ = self.bytes.extend_from_slice(&bytes[..taken]);
        self.room -= taken;
        if taken < bytes.len() {
            self.faults = self.faults.saturating_add(1);
            return Err(SinkFault::Failed);
        }
        Ok(())
    }
}
