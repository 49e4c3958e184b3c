// The bytes that wait to be read, in a queue with room for all of them.
ghost use Rattle.std.specs.Prelude.{◌≡◌, ◌<◌, ◌≤◌, ◌∷◌, ◌++◌, [], length, drop, slice_get, ◌==◌, IsTrue, ◌↔◌, IfOk};

use hart_words::WantOfMemory;
use std::alloc::Global;
use std::collections::VecDeque;
use std::marker::Model;

/// How many bytes may wait.
pub const WAITING_LEN: usize = 1024;

/// At most 1,024 bytes, first in, first out, seen as a list. Only `new` and `copy` take memory.
#[derive(Drop)]
pub struct WaitingBytes {
    queue: VecDeque<u8>,
}

impl Model for WaitingBytes {
    ghost use Rattle.std.specs.Prelude.{ℕ, List, ◌≤◌};
    ghost use Rattle.std.specs.VecDeque.{deque_len, deque_capacity};
    ghost use Rattle.board_devices.specs.declared.waiting_bytes.TheConstants.{WAITING_LEN};

    ghost Value = { List ℕ };

    ghost view = { λ w. w.queue.items };

    ghost invariant = { λ w. (deque_len w.queue ≤ WAITING_LEN) × (WAITING_LEN ≤ deque_capacity w.queue) };
}

impl WaitingBytes {
    pub fn new(alloc: Global) -> Result<WaitingBytes, WantOfMemory>
        ensures { IfOk result (λ waiting. waiting ≡ []) }
    {
        Ok(WaitingBytes {
            queue: VecDeque::with_capacity(alloc, WAITING_LEN)?,
        })
    }

    #[inline]
    pub fn is_empty(&self) -> bool
        ensures { result ≡ (length self.now == 0) }
    {
        self.queue.is_empty()
    }

    #[inline]
    pub fn is_full(&self) -> bool
        ensures { IsTrue result ↔ (WAITING_LEN ≤ length self.now) }
    {
        self.queue.len() >= WAITING_LEN
    }

    #[inline]
    pub fn push(&mut self, byte: u8)
        requires { length self.old < WAITING_LEN }
        ensures { self.new ≡ self.old ++ byte ∷ [] }
    {
        self.queue.push_back_reserved(byte);
    }

    #[inline]
    pub fn pop(&mut self) -> Option<u8>
        ensures first { result ≡ slice_get self.old 0 }
        ensures rest { self.new ≡ drop 1 self.old }
    {
        self.queue.pop_front()
    }

    pub fn copy(&self, alloc: Global) -> Result<WaitingBytes, WantOfMemory>
        ensures { IfOk result (λ copied. copied ≡ self.now) }
    {
        let (front, back) = self.queue.as_slices();
        let mut bytes = Vec::with_capacity(alloc, WAITING_LEN)?;
        bytes.extend_from_slice(front)?;
        bytes.extend_from_slice(back)?;
        Ok(WaitingBytes {
            queue: VecDeque::from_vec(bytes),
        })
    }
}
