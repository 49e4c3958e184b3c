// The controller with its selection.
ghost use Rattle.std.specs.Prelude.{◌≡◌, ◌↔◌, ◌+◌, ◌-◌, ◌<◌, ◌≤◌, IfOk, IfSome, IsNone, IsSome};
ghost use Rattle.std.specs.Bool.{OnTrue, OnFalse};
ghost use Rattle.clic_regs.specs.ClicState.{reset_clic, input_count, IsClicState};
ghost use Rattle.clic_regs.specs.LineChange.{line_changed, claimed};
ghost use Rattle.clic_regs.specs.Bytes.{byte_written, input_at};
ghost use Rattle.clic_select.specs.Top.{IsTop, NoneWaits, top};
ghost use Rattle.clic_select.specs.Tree.{binary_digits};

use crate::choice::Choice;
use crate::steps::Steps;
use crate::tree::{rebuild, refresh};
use clic_regs::{Clic, Shape, input_of};
use hart_words::WantOfMemory;
use std::alloc::Global;
use std::marker::{Brand, Model};
use std::sync::ledger::{Blank, Ledger};

/// A controller that tells which of its inputs interrupts. It is seen as the controller.
#[derive(Drop)]
pub struct Selector {
    clic: Clic,
    // The tree of winners among the inputs that are pending and enabled.
    nodes: Vec<Option<Choice>>,
}

impl Model for Selector {
    ghost use Rattle.clic_regs.specs.ClicState.{ClicState};
    ghost use Rattle.clic_select.specs.Tree.{Selects};

    ghost Value = { ClicState };

    ghost view = { λ s. s.clic };

    ghost invariant = { λ s. Selects s.clic s.nodes.items };
}

impl Selector {
    /// Every line, bit and byte is 0, but for the bits of control bytes that can't be written, which are 1.
    pub fn new(alloc: Global, shape: Shape) -> Result<Selector, WantOfMemory>
        ensures reset { IfOk result (λ s. s ≡ reset_clic shape) }
        ensures shape { IfOk result (λ s. s.shape ≡ shape) }
    {
        let clic = Clic::new(alloc, shape)?;
        Selector::of::<Brand>(alloc, clic, Blank::new(1))
    }

    // With a tree made anew.
    fn of<L: Ledger>(alloc: Global, clic: Clic, blank: Blank) -> Result<Selector, WantOfMemory>
        requires name { blank.name ≡ L.name }
        requires parts { blank.parts ≡ L.parts }
        requires some { 0 < L.parts }
        ensures { IfOk result (λ s. s ≡ clic) }
    {
        let mut steps = Steps::<L>::new(blank);
        let nodes = 2 * clic.shape().inputs() as usize;
        let mut nodes = vec![in alloc; None; nodes]?;
        rebuild(&clic, nodes.as_mut_slice(), &mut steps);
        Ok(Selector { clic, nodes })
    }

    #[inline]
    pub fn clic(&self) -> &Clic
        ensures { result.now ≡ self.now }
    {
        &self.clic
    }

    #[inline]
    pub fn shape(&self) -> Shape
        ensures value { result ≡ self.now.shape }
        ensures valid { IsClicState self.now }
    {
        self.clic.shape()
    }

    /// Writes the controller's byte at an offset, and answers whether there is one. A step is a
    /// comparison of two inputs.
    pub fn write_counted<L: Ledger>(&mut self, offset: u32, value: u8, steps: &mut Steps<L>) -> bool
        ensures there { OnTrue result (byte_written self.old offset value ≡ Some self.new) }
        ensures absent { OnFalse result (byte_written self.old offset value ≡ None) }
        ensures kept { OnFalse result (self.new ≡ self.old) }
        ensures shape { self.new.shape ≡ self.old.shape }
        ensures counts { steps.old ≤ steps.new }
        ensures input { IsSome (input_at (input_count self.old) offset) → steps.new ≤ steps.old + binary_digits (input_count self.old - 1) }
        ensures config { offset ≡ 0 → steps.new ≤ steps.old + (input_count self.old - 1) }
        ensures other { IsNone (input_at (input_count self.old) offset) → 0 < offset → steps.new ≡ steps.old }
    {
        let there = self.clic.write(offset, value);
        match input_of(offset, self.clic.shape()) {
            Some(i) => refresh(&self.clic, i, self.nodes.as_mut_slice(), steps),
            None => {
                if offset == 0 {
                    rebuild(&self.clic, self.nodes.as_mut_slice(), steps);
                }
            }
        }
        there
    }

    /// Sets an input's line, which may make the input pending. A step is a comparison of two inputs.
    pub fn set_line_counted<L: Ledger>(&mut self, i: u32, high: bool, steps: &mut Steps<L>)
        requires { i < input_count self.old }
        ensures line { self.new ≡ line_changed self.old i high }
        ensures shape { self.new.shape ≡ self.old.shape }
        ensures counts { steps.old ≤ steps.new }
        ensures cost { steps.new ≤ steps.old + binary_digits (input_count self.old - 1) }
    {
        self.clic.set_line(i, high);
        refresh(&self.clic, i, self.nodes.as_mut_slice(), steps);
    }

    /// An edge input stops being pending. A level input stays as its line says. A step is a
    /// comparison of two inputs.
    pub fn claim_clear_counted<L: Ledger>(&mut self, i: u32, steps: &mut Steps<L>)
        requires { i < input_count self.old }
        ensures claimed { self.new ≡ claimed self.old i }
        ensures shape { self.new.shape ≡ self.old.shape }
        ensures counts { steps.old ≤ steps.new }
        ensures cost { steps.new ≤ steps.old + binary_digits (input_count self.old - 1) }
    {
        self.clic.claim_clear(i);
        refresh(&self.clic, i, self.nodes.as_mut_slice(), steps);
    }

    fn write_from<L: Ledger>(&mut self, offset: u32, value: u8, blank: Blank) -> bool
        requires name { blank.name ≡ L.name }
        requires parts { blank.parts ≡ L.parts }
        requires some { 0 < L.parts }
        ensures there { OnTrue result (byte_written self.old offset value ≡ Some self.new) }
        ensures absent { OnFalse result (byte_written self.old offset value ≡ None) }
        ensures kept { OnFalse result (self.new ≡ self.old) }
        ensures shape { self.new.shape ≡ self.old.shape }
    {
        let mut steps = Steps::<L>::new(blank);
        self.write_counted(offset, value, &mut steps)
    }

    fn set_line_from<L: Ledger>(&mut self, i: u32, high: bool, blank: Blank)
        requires input { i < input_count self.old }
        requires name { blank.name ≡ L.name }
        requires parts { blank.parts ≡ L.parts }
        requires some { 0 < L.parts }
        ensures line { self.new ≡ line_changed self.old i high }
        ensures shape { self.new.shape ≡ self.old.shape }
    {
        let mut steps = Steps::<L>::new(blank);
        self.set_line_counted(i, high, &mut steps);
    }

    fn claim_clear_from<L: Ledger>(&mut self, i: u32, blank: Blank)
        requires input { i < input_count self.old }
        requires name { blank.name ≡ L.name }
        requires parts { blank.parts ≡ L.parts }
        requires some { 0 < L.parts }
        ensures claimed { self.new ≡ claimed self.old i }
        ensures shape { self.new.shape ≡ self.old.shape }
    {
        let mut steps = Steps::<L>::new(blank);
        self.claim_clear_counted(i, &mut steps);
    }

    /// Writes the controller's byte at an offset, and answers whether there is one.
    pub fn write(&mut self, offset: u32, value: u8) -> bool
        ensures there { OnTrue result (byte_written self.old offset value ≡ Some self.new) }
        ensures absent { OnFalse result (byte_written self.old offset value ≡ None) }
        ensures kept { OnFalse result (self.new ≡ self.old) }
        ensures shape { self.new.shape ≡ self.old.shape }
    {
        self.write_from::<Brand>(offset, value, Blank::new(1))
    }

    /// Sets an input's line, which may make the input pending.
    pub fn set_line(&mut self, i: u32, high: bool)
        requires { i < input_count self.old }
        ensures line { self.new ≡ line_changed self.old i high }
        ensures shape { self.new.shape ≡ self.old.shape }
    {
        self.set_line_from::<Brand>(i, high, Blank::new(1));
    }

    /// An edge input stops being pending. A level input stays as its line says.
    pub fn claim_clear(&mut self, i: u32)
        requires { i < input_count self.old }
        ensures claimed { self.new ≡ claimed self.old i }
        ensures shape { self.new.shape ≡ self.old.shape }
    {
        self.claim_clear_from::<Brand>(i, Blank::new(1));
    }

    /// The pending and enabled input with the greatest level, then the greatest priority, then the
    /// greatest number.
    #[inline]
    pub fn top(&self) -> Option<Choice>
        ensures value { result ≡ top self.now }
        ensures greatest { IfSome result (IsTop self.now) }
        ensures none { IsNone result ↔ NoneWaits self.now }
        ensures input { IfSome result (λ t. t.id < input_count self.now) }
        ensures number { IfSome result (λ t. t.id < 1024) }
    {
        self.nodes[1]
    }

    /// Takes memory for the copy alone.
    pub fn copy(&self, alloc: Global) -> Result<Selector, WantOfMemory>
        ensures { IfOk result (λ copy. copy ≡ self.now) }
    {
        Ok(Selector {
            clic: self.clic.copy(alloc)?,
            nodes: self.nodes.to_vec(alloc)?,
        })
    }
}
