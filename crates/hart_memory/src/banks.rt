// ROM and RAM.
ghost use Rattle.std.specs.Prelude.{◌≡◌, ◌+◌, ◌*◌, ◌^◌, ◌<◌, ◌≤◌, ◌↔◌, [], length, IsTrue, IfOk, OnOk, OnErr, Some, true, false, MatchBool};
ghost use Rattle.hart_memory.specs.Memory.{zero_memory};
ghost use Rattle.hart_memory.specs.Kept.{with_kept, gone_back};
ghost use Rattle.hart_memory.specs.Place.{holds, IsInOne};
ghost use Rattle.hart_memory.specs.Access.{IsWidth, loaded, stored, byte_at, with_byte};

use crate::address_map::{BANK_LEN, MAX_KEPT, RAM_BASE};
use crate::bank::Bank;
use crate::number::number;
use crate::place::{Place, place_of};
use hart_words::WantOfMemory;
use std::alloc::Global;
use std::marker::Model;

/// The two memories, each of 65,536 bytes, and the contents that they had when they were kept.
#[derive(Drop)]
pub struct Banks {
    alloc: Global,
    rom: Bank,
    ram: Bank,
}

impl Model for Banks {
    ghost use Rattle.std.specs.Prelude.{◌≡◌, length};
    ghost use Rattle.hart_memory.specs.Memory.{Memory};
    ghost use Rattle.hart_memory.specs.Kept.{Held, both};

    ghost Value = { Held Memory };

    ghost view = { λ b. both b.rom b.ram };

    ghost invariant = { λ b. length b.rom.kept ≡ length b.ram.kept };
}

impl Banks {
    /// All bytes are 0, and nothing is kept.
    pub fn new(alloc: Global) -> Result<Banks, WantOfMemory>
        ensures { IfOk result (λ banks. banks ≡ record { present = zero_memory; kept = [] }) }
    {
        Ok(Banks {
            alloc,
            rom: Bank::new(alloc)?,
            ram: Bank::new(alloc)?,
        })
    }

    /// Whether all bytes of an access are in one memory.
    #[inline]
    pub fn holds(&self, at: u32, width: u32) -> bool
        ensures exact { result ≡ holds at width }
        ensures bytes { 0 < width → (IsTrue result ↔ IsInOne at width) }
    {
        place_of(at, width).is_in_memory()
    }

    /// The byte at an address.
    #[inline]
    pub fn byte(&self, at: u32) -> u8
        requires { holds at 1 ≡ true }
        ensures { byte_at self.now.present at ≡ Some result }
    {
        match place_of(at, 1) {
            Place::InRom(k) => self.rom.bytes()[k as usize],
            Place::InRam(k) => self.ram.bytes()[k as usize],
            Place::Elsewhere => unreachable!(),
        }
    }

    /// Writes one byte, in ROM too.
    #[inline]
    pub fn place(&mut self, at: u32, value: u8)
        requires { holds at 1 ≡ true }
        ensures { self.new ≡ record self.old { present = with_byte self.old.present at value } }
    {
        match place_of(at, 1) {
            Place::InRom(k) => self.rom.place(k as usize, value),
            Place::InRam(k) => self.ram.place(k as usize, value),
            Place::Elsewhere => unreachable!(),
        }
    }

    /// The number in 1, 2 or 4 bytes, the lowest byte first.
    #[inline]
    pub fn load(&self, at: u32, width: u32) -> u32
        requires width { IsWidth width }
        requires held { holds at width ≡ true }
        ensures value { loaded self.now.present at width ≡ Some result }
        ensures fits { result < 2 ^ (8 * width) }
    {
        match place_of(at, width) {
            Place::InRom(k) => number(self.rom.bytes(), k as usize, width),
            Place::InRam(k) => number(self.ram.bytes(), k as usize, width),
            Place::Elsewhere => unreachable!(),
        }
    }

    /// Writes the lowest 1, 2 or 4 bytes of a value into RAM, the lowest byte first.
    #[inline]
    pub fn store(&mut self, at: u32, width: u32, value: u32)
        requires width { IsWidth width }
        requires held { holds at width ≡ true }
        requires ram { RAM_BASE ≤ at }
        ensures { self.new ≡ record self.old { present = stored self.old.present at width value } }
    {
        match place_of(at, width) {
            Place::InRam(k) => self.ram.put(k as usize, width, value),
            Place::InRom(_) | Place::Elsewhere => unreachable!(),
        }
    }

    /// Keeps the present bytes. Where `MAX_KEPT` contents were kept, the earliest goes.
    pub fn keep(&mut self) -> Result<(), WantOfMemory>
        ensures kept { OnOk result (self.new ≡ with_kept self.old) }
        ensures unchanged { OnErr result (self.new ≡ self.old) }
    {
        let rom = self.rom.difference(self.alloc)?;
        let ram = self.ram.difference(self.alloc)?;
        self.rom.keep(rom);
        self.ram.keep(ram);
        Ok(())
    }

    /// Goes back to the bytes that were kept latest. `false`: none are kept, and nothing has changed.
    pub fn back(&mut self) -> bool
        ensures state { self.new ≡ gone_back self.old }
        ensures told { MatchBool result (0 < length self.old.kept) (self.old.kept ≡ []) }
    {
        if self.rom.kept() == 0 {
            return false;
        }
        self.rom.back();
        self.ram.back();
        true
    }

    /// How many contents are kept.
    pub fn kept(&self) -> u32
        ensures count { result ≡ length self.now.kept }
        ensures few { result ≤ MAX_KEPT }
    {
        self.rom.kept() as u32
    }

    /// Two memories with the same bytes, of which nothing is kept.
    pub fn copy(&self, alloc: Global) -> Result<Banks, WantOfMemory>
        ensures { IfOk result (λ banks. banks ≡ record { present = self.now.present; kept = [] }) }
    {
        Ok(Banks {
            alloc,
            rom: self.rom.copy(alloc)?,
            ram: self.ram.copy(alloc)?,
        })
    }
}

impl Banks {
    // The bytes of ROM.
    #[inline]
    pub(crate) fn rom(&self) -> &[u8]
        ensures bytes { result.now ≡ self.now.present.rom }
        ensures len { length self.now.present.rom ≡ BANK_LEN }
    {
        self.rom.bytes()
    }

    // The bytes of RAM.
    #[inline]
    pub(crate) fn ram(&self) -> &[u8]
        ensures bytes { result.now ≡ self.now.present.ram }
        ensures len { length self.now.present.ram ≡ BANK_LEN }
    {
        self.ram.bytes()
    }
}
