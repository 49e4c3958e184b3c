// The memory, with the instructions of ROM that were executed before.
ghost use Rattle.std.specs.Prelude.{◌≡◌, ℕ, ◌%◌, ◌≤◌, ◌<◌, [], length, true, IfSome, IfOk, OnOk, OnErr, MatchBool};
ghost use Rattle.hart_memory.specs.Memory.{zero_memory};
ghost use Rattle.hart_memory.specs.Kept.{with_kept, gone_back};
ghost use Rattle.hart_memory.specs.Place.{holds};
ghost use Rattle.hart_memory.specs.Access.{IsWidth, stored, with_byte};
ghost use Rattle.hart_memory.specs.Fetch.{fetched};
ghost use Rattle.hart_memory.specs.declared.address_map.TheConstants.{RAM_BASE};
ghost use Rattle.hart_exec.specs.Operation.{NamesRegisters};
ghost use Rattle.hart_board.specs.Known.{IsKnown};

use crate::known::{KNOWN_LEN, Known, blank, forget_unless};
use hart_memory::Banks;
use hart_words::WantOfMemory;
use std::alloc::Global;
use std::marker::Model;

/// The two memories. What is known of ROM's instructions is no part of their value.
#[derive(Drop)]
pub struct Code {
    banks: Banks,
    // By the numbers of the half-words of ROM.
    known: Vec<Known>,
    // Nothing was learnt since all was forgotten.
    is_blank: bool,
}

impl Model for Code {
    ghost use Rattle.hart_memory.specs.Memory.{Memory};
    ghost use Rattle.hart_memory.specs.Kept.{Held};
    ghost use Rattle.hart_board.specs.Known.{IsKept};

    ghost Value = { Held Memory };

    ghost view = { λ c. c.banks };

    ghost invariant = { λ c. IsKept c.banks.present.rom c.known.items c.is_blank };
}

impl Code {
    /// All bytes are 0, and nothing is kept.
    #[tactic(auto, using(crate::proofs::KnownLemmas::blank_kept))]
    pub fn new(alloc: Global) -> Result<Code, WantOfMemory>
        ensures { IfOk result (λ code. code ≡ record { present = zero_memory; kept = [] }) }
    {
        Ok(Code {
            banks: Banks::new(alloc)?,
            known: blank(KNOWN_LEN as usize, alloc)?,
            is_blank: true,
        })
    }

    #[inline(always)]
    pub fn banks(&self) -> &Banks
        ensures { result.now ≡ self.now }
    {
        &self.banks
    }

    /// Writes one byte, in ROM too.
    #[tactic(auto, using(crate::proofs::KnownLemmas::blank_kept))]
    pub fn place(&mut self, at: u32, value: u8)
        requires { holds at 1 ≡ true }
        ensures { self.new ≡ record self.old { present = with_byte self.old.present at value } }
    {
        forget_unless(self.is_blank, &mut self.known);
        self.is_blank = true;
        self.banks.place(at, value);
    }

    /// Writes the lowest 1, 2 or 4 bytes of a value into RAM, the lowest byte first.
    #[inline(always)]
    pub fn store(&mut self, at: u32, width: u32, value: u32)
        requires width { IsWidth width }
        requires held { holds at width ≡ true }
        requires ram { RAM_BASE ≤ at }
        ensures { self.new ≡ record self.old { present = stored self.old.present at width value } }
    {
        self.banks.store(at, width, value);
    }

    /// Keeps the present bytes. Where `MAX_KEPT` contents were kept, the earliest goes.
    pub fn keep(&mut self) -> Result<(), WantOfMemory>
        ensures kept { OnOk result (self.new ≡ with_kept self.old) }
        ensures unchanged { OnErr result (self.new ≡ self.old) }
    {
        self.banks.keep()
    }

    /// Goes back to the bytes that were kept latest. `false`: none are kept, and nothing has changed.
    #[tactic(auto, using(crate::proofs::KnownLemmas::blank_kept))]
    pub fn back(&mut self) -> bool
        ensures state { self.new ≡ gone_back self.old }
        ensures told { MatchBool result (0 < length self.old.kept) (self.old.kept ≡ []) }
    {
        let known = &mut self.known;
        forget_unless(self.is_blank, known);
        self.is_blank = true;
        self.banks.back()
    }

    /// Two memories with the same bytes, of which nothing is kept.
    #[tactic(auto, using(crate::proofs::KnownLemmas::blank_kept))]
    pub fn copy(&self, alloc: Global) -> Result<Code, WantOfMemory>
        ensures { IfOk result (λ code. code ≡ record { present = self.now.present; kept = [] }) }
    {
        Ok(Code {
            banks: self.banks.copy(alloc)?,
            known: blank(KNOWN_LEN as usize, alloc)?,
            is_blank: true,
        })
    }

    /// What is known of the instruction at pc.
    #[inline(always)]
    pub fn known(&self, pc: u32) -> Option<&Known>
        requires { pc % 2 ≡ 0 }
        ensures names { IfSome result (λ e. NamesRegisters e.now.operation) }
        ensures known { IfSome result (λ e. IsKnown (fetched self.now.present pc) e.now) }
    {
        if pc < 2 * KNOWN_LEN {
            Some(&self.known[(pc / 2) as usize])
        } else {
            None
        }
    }

    /// Keeps the instruction at pc, where it is in ROM.
    pub fn learn(&mut self, pc: u32, known: Known)
        requires even { pc % 2 ≡ 0 }
        requires names { NamesRegisters known.operation }
        requires known { IsKnown (fetched self.old.present pc) known }
        ensures { self.new ≡ self.old }
    {
        if pc < 2 * KNOWN_LEN {
            self.known[(pc / 2) as usize] = known;
            self.is_blank = false;
        }
    }
}
