// The board.
ghost use Rattle.std.specs.Prelude.{◌≡◌, ◌-◌, ◌%◌, ◌<◌, ◌≤◌, [], length, true, Some, IsTrue, IfOk, OnOk, OnErr, MatchBool};
ghost use Rattle.hart_words.specs.Registers.{register};
ghost use Rattle.hart_memory.specs.Access.{byte_at, with_byte};
ghost use Rattle.hart_memory.specs.Place.{holds};
ghost use Rattle.hart_board.specs.State.{State, reset, with_kept, gone_back};
ghost use Rattle.hart_board.specs.Outside.{reset_outside};
ghost use Rattle.hart_board.specs.Event.{is_free, applied};
ghost use Rattle.hart_board.specs.Valid.{IsBoard, IsOfOneShape};

use crate::code::Code;
use crate::outside::Outside;
use crate::rest::{Rest, put_first};
use crate::what::What;
use clic_regs::Shape;
use clic_select::Selector;
use csr_file::Csrs;
use device_model::{Device, MAX_LINES, REGION_LEN};
use hart_memory::laws::banks_are_whole;
use hart_memory::{Banks, MAX_KEPT};
use hart_words::{Regs, WantOfMemory};
use std::alloc::Global;
use std::marker::Model;

mod access;
mod stepping;

/// A hart with its memory, an interrupt controller and a device.
#[derive(Drop)]
pub struct Board<D: Device> {
    registers: Regs,
    pc: u32,
    csrs: Csrs,
    banks: Code,
    outside: Outside<D>,
    // The controller's, now and in each state that is kept.
    shape: Shape,
    // The rest of each state that is kept, the latest first; the memory keeps its own.
    rests: Vec<Rest<D>>,
}

impl<D: Device> Model for Board<D> {
    ghost use Rattle.std.specs.Prelude.{◌≡◌, ◌%◌, ◌≤◌, length};
    ghost use Rattle.std.specs.Vec.{vec_capacity};
    ghost use Rattle.hart_memory.specs.declared.address_map.TheConstants.{MAX_KEPT};
    ghost use Rattle.hart_board.specs.State.{State, moments};
    ghost use Rattle.hart_board.specs.Valid.{HaveShape};

    ghost Value = { State };

    ghost view = { λ b. record { registers = b.registers; pc = b.pc; csrs = b.csrs; memory = b.banks.present; outside = b.outside; kept = moments b.rests.items b.banks.kept } };

    ghost invariant = { λ b. (b.pc % 2 ≡ 0) × (length b.rests.items ≡ length b.banks.kept) × (MAX_KEPT ≤ vec_capacity b.rests) × (b.outside.clic.shape ≡ b.shape) × HaveShape b.shape b.rests.items };
}

impl<D: Device> Board<D> {
    /// The board at reset, with this device, whose lines are sampled once, and a controller of this
    /// shape.
    pub fn new(alloc: Global, device: D, shape: Shape) -> Result<Board<D>, WantOfMemory>
        requires place { D.means.high (D.state device) ≤ REGION_LEN }
        requires lines { length (D.means.lines (D.state device)) ≤ MAX_LINES }
        ensures { IfOk result (λ board. board ≡ reset (reset_outside D.means shape (D.state device))) }
    {
        Ok(Board {
            registers: Regs::new(),
            pc: 0,
            csrs: Csrs::new(),
            banks: Code::new(alloc)?,
            outside: Outside::new(alloc, device, shape)?,
            shape,
            rests: Vec::with_capacity(alloc, MAX_KEPT)?,
        })
    }

    /// The address of the next instruction, which is even.
    #[inline]
    pub fn pc(&self) -> u32
        ensures value { result ≡ self.now.pc }
        ensures even { result % 2 ≡ 0 }
    {
        self.pc
    }

    /// The state is one that a board can be in.
    pub fn in_range(&self)
        ensures { IsBoard D.means self.now }
    {
        let _ = self.pc();
        self.registers.in_range();
        self.csrs.in_range();
        banks_are_whole(self.banks.banks());
        self.outside.in_range();
    }

    pub fn reg(&self, i: u8) -> u32
        requires { i < 32 }
        ensures { result ≡ register self.now.registers i }
    {
        self.registers.get(i)
    }

    pub fn regs(&self) -> &Regs
        ensures { result.now ≡ self.now.registers }
    {
        &self.registers
    }

    pub fn csrs(&self) -> &Csrs
        ensures { result.now ≡ self.now.csrs }
    {
        &self.csrs
    }

    /// The byte at an address of memory.
    pub fn byte(&self, at: u32) -> u8
        requires { holds at 1 ≡ true }
        ensures { byte_at self.now.memory at ≡ Some result }
    {
        self.banks.banks().byte(at)
    }

    pub fn banks(&self) -> &Banks
        ensures { result.now.present ≡ self.now.memory }
    {
        self.banks.banks()
    }

    pub fn select(&self) -> &Selector
        ensures { result.now ≡ self.now.outside.clic }
    {
        self.outside.select()
    }

    /// How many inputs the controller has, and how many bits of their control bytes can be written.
    #[inline]
    pub fn shape(&self) -> Shape
        ensures { result ≡ self.now.outside.clic.shape }
    {
        self.select().shape()
    }

    pub fn device(&self) -> &D
        ensures { D.state result.now ≡ self.now.outside.device }
    {
        self.outside.device()
    }

    /// The code with which the board has halted.
    #[inline]
    pub fn halted(&self) -> Option<u32>
        ensures { result ≡ D.means.halted self.now.outside.device }
    {
        self.outside.halted()
    }

    /// Puts a byte at an address of memory, ROM or RAM.
    pub fn place(&mut self, at: u32, value: u8)
        requires { holds at 1 ≡ true }
        ensures { self.new ≡ record self.old { memory = with_byte self.old.memory at value } }
    {
        self.banks.place(at, value);
    }

    /// Goes on at this address with bit 0 cleared.
    pub fn set_pc(&mut self, pc: u32)
        ensures { self.new ≡ record self.old { pc = pc - pc % 2 } }
    {
        self.pc = pc - pc % 2;
    }

    /// Sets mscratch.
    pub fn set_scratch(&mut self, value: u32)
        ensures { self.new ≡ record self.old { csrs = record self.old.csrs { mscratch = value } } }
    {
        self.csrs.set_mscratch(value);
    }

    /// Makes what comes from outside, also where the board has halted.
    #[tactic(auto, unfolding(crate::specs::Event::applied))]
    pub fn apply(&mut self, what: &What)
        requires { IsTrue (is_free self.old.outside.clic.shape.inputs what.now) }
        ensures { self.new ≡ applied D.means self.old what.now }
    {
        match *what {
            What::Line { input, high } => self.outside.set_line(input, high),
            What::Device(stimulus) => self.outside.stimulus(stimulus),
        }
    }

    /// Keeps the state. Where as many were kept as may be, the earliest goes.
    pub fn keep(&mut self, alloc: Global) -> Result<(), WantOfMemory>
        ensures kept { OnOk result (self.new ≡ with_kept self.old) }
        ensures unchanged { OnErr result (self.new ≡ self.old) }
    {
        let outside = self.outside.copy(alloc)?;
        self.banks.keep()?;
        let rest = Rest {
            registers: self.registers,
            pc: self.pc,
            csrs: self.csrs,
            outside,
        };
        put_first(&mut self.rests, rest);
        Ok(())
    }

    /// Goes back to the state that was kept latest. `false`: none is kept, and nothing has changed.
    pub fn back(&mut self) -> bool
        ensures state { self.new ≡ gone_back self.old }
        ensures told { MatchBool result (0 < length self.old.kept) (self.old.kept ≡ []) }
    {
        if !self.banks.back() {
            return false;
        }
        let rest = self.rests.remove(0);
        self.registers = rest.registers;
        self.pc = rest.pc;
        self.csrs = rest.csrs;
        self.outside = rest.outside;
        true
    }

    /// How many states are kept. The controller had in each of them the shape that it has now.
    pub fn kept(&self) -> u32
        ensures count { result ≡ length self.now.kept }
        ensures few { result ≤ MAX_KEPT }
        ensures shape { IsOfOneShape self.now }
    {
        self.banks.banks().kept()
    }

    /// A board in the same state, of which nothing is kept.
    pub fn copy(&self, alloc: Global) -> Result<Board<D>, WantOfMemory>
        ensures { IfOk result (λ board. board ≡ record self.now { kept = [] }) }
    {
        Ok(Board {
            registers: self.registers,
            pc: self.pc,
            csrs: self.csrs,
            banks: self.banks.copy(alloc)?,
            outside: self.outside.copy(alloc)?,
            shape: self.shape,
            rests: Vec::with_capacity(alloc, MAX_KEPT)?,
        })
    }
}
