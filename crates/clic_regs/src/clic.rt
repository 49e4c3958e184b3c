// The inputs of the interrupt controller, and its registers as views of them.
ghost use Rattle.std.specs.Prelude.{◌≡◌, ◌<◌, IfOk, if◌then◌else◌, nat_le};
ghost use Rattle.std.specs.Bool.{OnTrue, OnFalse};
ghost use Rattle.clic_regs.specs.Attribute.{is_hard_vectored};
ghost use Rattle.clic_regs.specs.ClicState.{reset_clic, IsClicState, input_count, is_pending, is_enabled, attribute_of};
ghost use Rattle.clic_regs.specs.Level.{level_of, priority_of};
ghost use Rattle.clic_regs.specs.Bytes.{byte_read, byte_written};
ghost use Rattle.clic_regs.specs.LineChange.{line_changed, attribute_changed, pending_changed, claimed};

use crate::attribute::{is_active, is_edge, is_hard_vectored, pending_after};
use crate::clic_byte::ClicByte;
use crate::level::{filled, level, priority};
use crate::shape::Shape;
use hart_words::WantOfMemory;
use std::alloc::Global;
use std::marker::Model;

// The mode in the upper bits of each attribute byte.
const MACHINE_MODE: u8 = 0xC0;

/// The registers of a core-local interrupt controller. They are seen as its shape, nlbits and five lists.
#[derive(Drop)]
pub struct Clic {
    shape: Shape,
    nlbits: u8,
    line: Vec<bool>,
    pending: Vec<bool>,
    enable: Vec<bool>,
    attribute: Vec<u8>,
    control: Vec<u8>,
}

impl Model for Clic {
    ghost use Rattle.clic_regs.specs.ClicState.{ClicState, IsClicState};

    ghost Value = { ClicState };

    ghost use Rattle.clic_regs.specs.Fields.{fields};

    ghost view = { fields };

    ghost invariant = { λ c. IsClicState (fields c) };
}

impl Clic {
    /// Every line, bit and byte is 0, but for the bits of control bytes that can't be written, which are 1.
    #[tactic(auto, unfolding(crate::specs::ClicState::reset_clic))]
    pub fn new(alloc: Global, shape: Shape) -> Result<Clic, WantOfMemory>
        ensures reset { IfOk result (λ c. c ≡ reset_clic shape) }
        ensures shape { IfOk result (λ c. c.shape ≡ shape) }
    {
        let inputs = shape.inputs() as usize;
        let control = filled(shape.bits() as u8, 0);
        Ok(Clic {
            shape,
            nlbits: 0,
            line: vec![in alloc; false; inputs]?,
            pending: vec![in alloc; false; inputs]?,
            enable: vec![in alloc; false; inputs]?,
            attribute: vec![in alloc; 0; inputs]?,
            control: vec![in alloc; control; inputs]?,
        })
    }

    #[inline]
    pub fn shape(&self) -> Shape
        ensures value { result ≡ self.now.shape }
        ensures valid { IsClicState self.now }
    {
        self.shape
    }

    #[inline]
    pub fn pending(&self, i: u32) -> bool
        requires { i < input_count self.now }
        ensures { result ≡ is_pending self.now i }
    {
        self.pending[i as usize]
    }

    #[inline]
    pub fn enabled(&self, i: u32) -> bool
        requires { i < input_count self.now }
        ensures { result ≡ is_enabled self.now i }
    {
        self.enable[i as usize]
    }

    /// Whether the hardware takes the input's handler from the table of vectors.
    #[inline]
    pub fn hard_vectored(&self, i: u32) -> bool
        requires { i < input_count self.now }
        ensures { result ≡ is_hard_vectored (attribute_of self.now i) }
    {
        is_hard_vectored(self.attribute[i as usize])
    }

    #[inline]
    pub fn level_of(&self, i: u32) -> u8
        requires { i < input_count self.now }
        ensures { result ≡ level_of self.now i }
    {
        level(self.nlbits, self.control[i as usize])
    }

    #[inline]
    pub fn priority_of(&self, i: u32) -> u8
        requires { i < input_count self.now }
        ensures { result ≡ priority_of self.now i }
    {
        priority(self.nlbits, self.control[i as usize])
    }

    /// The byte at an offset from the controller's first address, where there is one.
    #[tactic(auto, unfolding(crate::specs::Bytes::byte_read))]
    pub fn read(&self, offset: u32) -> Option<u8>
        ensures { result ≡ byte_read self.now offset }
    {
        match ClicByte::at(offset, self.shape.inputs()) {
            None => None,
            Some(ClicByte::Config) => Some(self.nlbits * 2),
            Some(ClicByte::Reserved) => Some(0),
            Some(ClicByte::Pending(i)) => Some(u8::from(self.pending[i as usize])),
            Some(ClicByte::Enable(i)) => Some(u8::from(self.enable[i as usize])),
            Some(ClicByte::Attribute(i)) => Some(MACHINE_MODE + self.attribute[i as usize]),
            Some(ClicByte::Control(i)) => Some(self.control[i as usize]),
        }
    }

    /// Writes the byte at an offset, and answers whether there is one.
    #[tactic(auto, unfolding(crate::specs::Bytes::byte_written))]
    pub fn write(&mut self, offset: u32, value: u8) -> bool
        ensures there { OnTrue result (byte_written self.old offset value ≡ Some self.new) }
        ensures absent { OnFalse result (byte_written self.old offset value ≡ None) }
        ensures kept { OnFalse result (self.new ≡ self.old) }
        ensures shape { self.new.shape ≡ self.old.shape }
    {
        match ClicByte::at(offset, self.shape.inputs()) {
            None => return false,
            Some(ClicByte::Config) => self.set_nlbits((value >> 1) & 0xF),
            Some(ClicByte::Reserved) => {}
            Some(ClicByte::Pending(i)) => self.set_pending(i, value & 1 == 1),
            Some(ClicByte::Enable(i)) => self.enable[i as usize] = value & 1 == 1,
            Some(ClicByte::Attribute(i)) => self.set_attribute(i, value & 7),
            Some(ClicByte::Control(i)) => self.control[i as usize] = filled(
                self.shape.bits() as u8,
                value,
            ),
        }
        true
    }

    /// Sets an input's line, which may make the input pending.
    #[tactic(auto, unfolding(crate::specs::LineChange::line_changed))]
    pub fn set_line(&mut self, i: u32, high: bool)
        requires { i < input_count self.old }
        ensures line { self.new ≡ line_changed self.old i high }
        ensures shape { self.new.shape ≡ self.old.shape }
    {
        let i = i as usize;
        self.pending[i] = pending_after(self.attribute[i], self.line[i], self.pending[i], high);
        self.line[i] = high;
    }

    /// An edge input stops being pending. A level input stays as its line says.
    pub fn claim_clear(&mut self, i: u32)
        requires { i < input_count self.old }
        ensures claimed { self.new ≡ claimed self.old i }
        ensures shape { self.new.shape ≡ self.old.shape }
    {
        self.set_pending(i, false);
    }

    /// Takes memory for the copy alone.
    pub fn copy(&self, alloc: Global) -> Result<Clic, WantOfMemory>
        ensures { IfOk result (λ copy. copy ≡ self.now) }
    {
        Ok(Clic {
            shape: self.shape,
            nlbits: self.nlbits,
            line: self.line.to_vec(alloc)?,
            pending: self.pending.to_vec(alloc)?,
            enable: self.enable.to_vec(alloc)?,
            attribute: self.attribute.to_vec(alloc)?,
            control: self.control.to_vec(alloc)?,
        })
    }

    // More than 8 bits are not taken.
    fn set_nlbits(&mut self, nlbits: u8)
        ensures { self.new ≡ (if nat_le nlbits 8 then record self.old { nlbits = nlbits } else self.old) }
    {
        if nlbits <= 8 {
            self.nlbits = nlbits;
        }
    }

    #[tactic(auto, unfolding(crate::specs::LineChange::pending_changed))]
    fn set_pending(&mut self, i: u32, value: bool)
        requires { i < input_count self.old }
        ensures pending { self.new ≡ pending_changed self.old i value }
        ensures shape { self.new.shape ≡ self.old.shape }
    {
        let i = i as usize;
        if is_edge(self.attribute[i]) {
            self.pending[i] = value;
        }
    }

    #[tactic(auto, unfolding(crate::specs::LineChange::attribute_changed))]
    fn set_attribute(&mut self, i: u32, value: u8)
        requires input { i < input_count self.old }
        requires bits { value < 8 }
        ensures attribute { self.new ≡ attribute_changed self.old i value }
        ensures shape { self.new.shape ≡ self.old.shape }
    {
        let i = i as usize;
        self.attribute[i] = value;
        if !is_edge(value) {
            self.pending[i] = is_active(value, self.line[i]);
        }
    }
}
