// What a chain keeps beside the board.
ghost use Rattle.std.specs.Prelude.{◌≡◌, ◌+◌, ◌-◌, ◌<◌, ◌≤◌, length, true, IfOk};
ghost use Rattle.hart_memory.specs.Place.{place};
ghost use Rattle.hart_memory.specs.declared.address_map.TheConstants.{RAM_BASE, BANK_LEN};
ghost use Rattle.chain_moves.specs.Slot.{frame_size};
ghost use Rattle.chain_moves.specs.Servicing.{is_foreground, innermost_level};
ghost use Rattle.chain_moves.specs.Bytes.{some_byte, is_hidden, in_live_frame, revived_at};
ghost use Rattle.chain_moves.specs.Tests.{is_lost};
ghost use Rattle.chain_moves.specs.Judge.{judge_entry};
ghost use Rattle.chain_moves.specs.Ready.{revived_by};
ghost use Rattle.chain_moves.specs.Watched.{Watched, nothing_watched, with_service, without_service, outside_of};

use crate::dead::{alive, hides_some, is_dead, mark, revive};
use crate::entering::test_entry;
use crate::entry::Entry;
use crate::frames::{meets, without_last};
use crate::kept::is_lost;
use crate::mark::Mark;
use crate::slot::FRAME_SIZE;
use hart_exec::Effect;
use hart_memory::{BANK_LEN, Place, RAM_BASE, place_of};
use hart_report::DeadBytes;
use hart_words::{Regs, WantOfMemory};
use std::alloc::Global;
use std::marker::Model;

/// How many services may be live. Their levels are below 256 and strictly rise, so there are no more.
pub const MAX_LIVE: usize = 255;

/// The live services, and which bytes of RAM are dead. A watch is used for one chain.
#[derive(Drop)]
pub struct Watch {
    // The outermost first, with room for all of them.
    marks: Vec<Mark>,
    dead: Vec<bool>,
}

impl Model for Watch {
    ghost use Rattle.std.specs.Prelude.{◌≡◌, ◌≤◌, length, reverse, vec_len};
    ghost use Rattle.std.specs.Vec.{vec_capacity};
    ghost use Rattle.hart_memory.specs.declared.address_map.TheConstants.{BANK_LEN};
    ghost use Rattle.chain_moves.specs.Watched.{Watched};
    ghost use Rattle.chain_moves.specs.declared.watch.TheConstants.{MAX_LIVE};

    ghost Value = { Watched };

    ghost view = { λ w. record { live = reverse w.marks.items; dead = w.dead.items } };

    ghost invariant = { λ w. (length w.dead.items ≡ BANK_LEN) × (vec_len w.marks ≤ MAX_LIVE) × (MAX_LIVE ≤ vec_capacity w.marks) };
}

impl Watch {
    /// No service is live, and no byte is dead. It takes all memory that a chain needs.
    pub fn new(alloc: Global) -> Result<Watch, WantOfMemory>
        ensures { IfOk result (λ watch. watch ≡ nothing_watched) }
    {
        let marks = Vec::with_capacity(alloc, MAX_LIVE)?;
        let dead = alive(alloc, BANK_LEN as usize)?;
        Ok(Watch { marks, dead })
    }

    /// Whether no service is live.
    #[inline]
    pub fn is_foreground(&self) -> bool
        ensures { result ≡ is_foreground self.now.live }
    {
        self.marks.is_empty()
    }

    /// Whether one of so many bytes from an address on is in the slot, or dead.
    #[inline(always)]
    pub fn hides(&self, at: u32, count: u32) -> bool
        ensures { result ≡ some_byte (is_hidden self.now.dead) at count }
    {
        hides_some(&self.dead, at, count)
    }

    /// Whether one of so many bytes from an address on is in a live frame.
    pub(crate) fn meets(&self, at: u32, count: u32) -> bool
        requires { 0 < count }
        ensures { result ≡ some_byte (in_live_frame self.now.live) at count }
    {
        meets(self.marks.as_slice(), at, count)
    }

    /// What the tests of an Enter come to.
    pub(crate) fn entry(&self, shv: bool, vector: u32, frame: u32, at: u32) -> Entry
        ensures { result ≡ judge_entry self.now.live self.now.dead shv vector frame at }
    {
        test_entry(self.marks.as_slice(), &self.dead, shv, vector, frame, at)
    }

    /// A service begins.
    pub fn enter(&mut self, service: Mark)
        requires room { length self.old.live < MAX_LIVE }
        requires low { RAM_BASE ≤ service.frame }
        requires high { service.frame + frame_size ≤ RAM_BASE + BANK_LEN }
        ensures { self.new ≡ with_service self.old service (service.frame - RAM_BASE) }
    {
        self.marks.push_reserved(service);
        let place = service.frame - RAM_BASE;
        mark(&mut self.dead, place as usize, FRAME_SIZE as usize, true);
    }

    /// So many bytes from an address on are stored, and dead no more.
    #[inline(always)]
    pub fn revive(&mut self, at: u32, width: u32)
        ensures { self.new ≡ record self.old { dead = revived_at (place at width) width self.old.dead } }
    {
        match place_of(at, width) {
            Place::InRam(k) => revive(&mut self.dead, k as usize, width as usize),
            Place::InRom(_) | Place::Elsewhere => {}
        }
    }

    /// What is stored by this effect is dead no more.
    #[inline(always)]
    pub fn revive_by(&mut self, effect: Effect)
        ensures { self.new ≡ revived_by self.old effect }
    {
        match effect {
            Effect::Store { at, width, .. } => self.revive(at, width),
            Effect::Go { .. } | Effect::Load { .. } | Effect::System => {}
        }
    }

    /// The innermost service ends, where there is one.
    #[tactic(auto, using(crate::proofs::Turned::popped))]
    pub fn leave(&mut self)
        ensures { self.new ≡ without_service self.old }
    {
        let _ended = self.marks.pop();
    }

    /// What the tests of an Enter come to, once the innermost service has ended.
    pub(crate) fn entry_outside(&self, shv: bool, vector: u32, frame: u32, at: u32) -> Entry
        requires { 0 < length self.now.live }
        ensures { result ≡ judge_entry (outside_of self.now.live) self.now.dead shv vector frame at }
    {
        let marks = without_last(self.marks.as_slice());
        test_entry(marks, &self.dead, shv, vector, frame, at)
    }

    /// The innermost level, once the innermost service has ended.
    #[tactic(auto, using(crate::proofs::Turned::level_none, crate::proofs::Turned::level_some))]
    pub(crate) fn level_outside(&self) -> u8
        ensures { result ≡ innermost_level (outside_of self.now.live) }
    {
        let marks = self.marks.as_slice();
        if marks.len() < 2 {
            return 0;
        }
        marks[marks.len() - 2].level
    }

    /// Whether a handler returns, and a register is not as it was when the handler began.
    #[inline(always)]
    pub fn has_lost(&self, pc: u32, registers: &Regs) -> bool
        ensures { result ≡ is_lost self.now.live pc registers.now }
    {
        is_lost(self.marks.as_slice(), pc, registers)
    }
}

impl DeadBytes for Watch {
    ghost use Rattle.chain_moves.specs.Bytes.{is_dead};

    ghost dead = { λ w. is_dead w.dead };

    fn is_dead(&self, at: u32) -> bool {
        is_dead(&self.dead, u64::from(at))
    }
}
