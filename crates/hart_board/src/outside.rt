// What lies outside the hart and its memory: the interrupt controller and the device.
ghost use Rattle.std.specs.Prelude.{◌≡◌, ℕ, IsTrue, ◌%◌, ◌*◌, ◌^◌, ◌<◌, ◌≤◌, length, Some, None, IfSome, IfNone, IfOk, if◌then◌else◌};
ghost use Rattle.std.specs.Option.{option_map};
ghost use Rattle.std.specs.Bool.{OnFalse};
ghost use Rattle.device_model.specs.Access.{IsWidth};
ghost use Rattle.clic_regs.specs.ClicState.{input_count, IsClicState};
ghost use Rattle.clic_regs.specs.LineChange.{line_changed};
ghost use Rattle.clic_select.specs.Top.{top};
ghost use Rattle.clic_trap.specs.Entry.{entered, GoesToEven};
ghost use Rattle.clic_trap.specs.System.{system, is_system, JumpsToEven};
ghost use Rattle.clic_trap.specs.declared.entered.Entered.TheVariants.{VectorFault};
ghost use Rattle.rv_encoding.specs.Fits.{can_be_spelled};
ghost use Rattle.hart_board.specs.Region.{region};
ghost use Rattle.hart_board.specs.Valid.{IsOutside};
ghost use Rattle.hart_board.specs.Outside.{lines_set, with_device, reset_outside, device_loaded, loaded_in, stored_in};

use crate::region::{Region, region_of};
use clic_regs::Shape;
use clic_select::{Choice, Selector, load_bytes, store_bytes};
use clic_trap::{Entered, SystemEnd, enter_interrupt, system};
use csr_file::Csrs;
use device_model::{Device, MAX_LINES, REGION_LEN, Stimulus};
use hart_memory::Banks;
use hart_words::{Regs, WantOfMemory};
use rv_encoding::Ins;
use std::alloc::Global;
use std::marker::Model;

/// The input that the device's first line drives.
pub const FIRST_DEVICE_INPUT: u32 = 16;

/// The interrupt controller and the device.
#[derive(Drop)]
pub struct Outside<D: Device> {
    select: Selector,
    device: D,
}

impl<D: Device> Model for Outside<D> {
    ghost use Rattle.std.specs.Prelude.{◌≤◌, length};
    ghost use Rattle.device_model.specs.declared.device.TheConstants.{MAX_LINES};
    ghost use Rattle.hart_board.specs.State.{Outside as OutsideState};

    ghost Value = { OutsideState };

    ghost view = { λ o. record { clic = o.select; device = D.state o.device } };

    ghost invariant = { λ o. length (D.means.lines (D.state o.device)) ≤ MAX_LINES };
}

// Sets the device's lines as inputs.
fn sample<D: Device>(select: &mut Selector, device: &D)
    requires { length (D.means.lines (D.state device.now)) ≤ MAX_LINES }
    ensures lines { select.new ≡ lines_set FIRST_DEVICE_INPUT (D.means.lines (D.state device.now)) select.old }
    ensures shape { select.new.shape ≡ select.old.shape }
{
    let _ = select.shape();
    for k in 0..device.line_count() {
        select.set_line(FIRST_DEVICE_INPUT + k, device.line(k));
    }
}

impl<D: Device> Outside<D> {
    /// A controller of this shape at reset, and this device with its lines sampled.
    #[tactic(auto, unfolding(crate::specs::Outside::with_device))]
    pub fn new(alloc: Global, device: D, shape: Shape) -> Result<Outside<D>, WantOfMemory>
        requires { length (D.means.lines (D.state device)) ≤ MAX_LINES }
        ensures { IfOk result (λ o. o ≡ reset_outside D.means shape (D.state device)) }
    {
        let mut select = Selector::new(alloc, shape)?;
        sample(&mut select, &device);
        Ok(Outside { select, device })
    }

    #[inline]
    pub fn select(&self) -> &Selector
        ensures { result.now ≡ self.now.clic }
    {
        &self.select
    }

    #[inline]
    pub fn device(&self) -> &D
        ensures { D.state result.now ≡ self.now.device }
    {
        &self.device
    }

    /// The controller and the device are in states of theirs.
    pub fn in_range(&self)
        ensures { IsOutside D.means self.now }
    {
        let _ = self.select.shape();
        let _ = self.device.halt();
    }

    /// The code with which the device has halted the board.
    #[inline]
    pub fn halted(&self) -> Option<u32>
        ensures { result ≡ D.means.halted self.now.device }
    {
        self.device.halt()
    }

    // A load of a register of the device, after which its lines are sampled.
    #[tactic(auto, unfolding(crate::specs::Outside::with_device))]
    fn load_device(&mut self, offset: u32, width: u32) -> Option<u32>
        requires width { IsWidth width }
        requires aligned { offset % width ≡ 0 }
        requires in_region { offset < REGION_LEN }
        ensures answer { device_loaded D.means self.old (D.means.after_load self.old.device offset width) (D.means.loaded self.old.device offset width) ≡ option_map (λ value. (value, self.new)) result }
        ensures kept { IfNone result (self.new ≡ self.old) }
        ensures fits { IfSome result (λ value. value < 2 ^ (8 * width)) }
        ensures shape { self.new.clic.shape ≡ self.old.clic.shape }
    {
        match self.device.load(offset, width) {
            Some(value) => {
                sample(&mut self.select, &self.device);
                Some(value)
            }
            None => None,
        }
    }

    // A store to a register of the device, after which its lines are sampled.
    #[tactic(auto, unfolding(crate::specs::Outside::with_device))]
    fn store_device(&mut self, offset: u32, width: u32, value: u32) -> bool
        requires width { IsWidth width }
        requires aligned { offset % width ≡ 0 }
        requires in_region { offset < REGION_LEN }
        requires fits { value < 2 ^ (8 * width) }
        ensures answer { option_map (with_device D.means self.old) (D.means.after_store self.old.device offset width value) ≡ (if result then Some self.new else None) }
        ensures kept { OnFalse result (self.new ≡ self.old) }
        ensures shape { self.new.clic.shape ≡ self.old.clic.shape }
    {
        if !self.device.store(offset, width, value) {
            return false;
        }
        sample(&mut self.select, &self.device);
        true
    }

    /// A load outside memory. `None`: there is nothing to load, and nothing has changed.
    pub fn load(&mut self, at: u32, width: u32) -> Option<u32>
        requires width { IsWidth width }
        requires aligned { at % width ≡ 0 }
        ensures answer { loaded_in D.means self.old width (region at) ≡ option_map (λ value. (value, self.new)) result }
        ensures kept { IfNone result (self.new ≡ self.old) }
        ensures fits { IfSome result (λ value. value < 2 ^ (8 * width)) }
        ensures shape { self.new.clic.shape ≡ self.old.clic.shape }
    {
        match region_of(at) {
            Region::Controller(offset) => load_bytes(self.select.clic(), offset, width),
            Region::Devices(offset) => self.load_device(offset, width),
            Region::Nowhere => None,
        }
    }

    /// A store outside memory. `false`: there is nothing to store to, and nothing has changed.
    pub fn store(&mut self, at: u32, width: u32, value: u32) -> bool
        requires width { IsWidth width }
        requires aligned { at % width ≡ 0 }
        requires fits { value < 2 ^ (8 * width) }
        ensures answer { stored_in D.means self.old width value (region at) ≡ (if result then Some self.new else None) }
        ensures kept { OnFalse result (self.new ≡ self.old) }
        ensures shape { self.new.clic.shape ≡ self.old.clic.shape }
    {
        match region_of(at) {
            Region::Controller(offset) => store_bytes(&mut self.select, offset, width, value),
            Region::Devices(offset) => self.store_device(offset, width, value),
            Region::Nowhere => false,
        }
    }

    /// Sets the line of an input.
    pub fn set_line(&mut self, input: u32, high: bool)
        requires { input < input_count self.old.clic }
        ensures line { self.new ≡ record self.old { clic = line_changed self.old.clic input high } }
        ensures shape { self.new.clic.shape ≡ self.old.clic.shape }
    {
        self.select.set_line(input, high);
    }

    /// Enters the interrupt of the top.
    pub fn enter_interrupt(
        &mut self,
        csrs: &mut Csrs,
        banks: &Banks,
        choice: Choice,
        pc: u32,
    ) -> Entered
        requires top { top self.old.clic ≡ Some choice }
        requires even { pc % 2 ≡ 0 }
        ensures entry { let entry = entered csrs.old self.old.clic banks.now.present choice pc in
            (result ≡ entry.answer) × (csrs.new ≡ entry.csrs) × (self.new ≡ record self.old { clic = entry.clic }) }
        ensures even { GoesToEven result }
        ensures kept { (id : ℕ) → result ≡ VectorFault id → (csrs.new ≡ csrs.old) × (self.new ≡ self.old) }
        ensures shape { self.new.clic.shape ≡ self.old.clic.shape }
    {
        enter_interrupt(csrs, &mut self.select, banks, choice, pc)
    }

    /// Carries out a system instruction. Where it raises nothing changes.
    pub fn system(&mut self, ins: &Ins, registers: &mut Regs, csrs: &mut Csrs) -> SystemEnd
        requires fits { IsTrue (can_be_spelled ins.now) }
        requires kind { IsTrue (is_system ins.now) }
        ensures outcome { let made = system ins.now registers.old csrs.old self.old.clic in
            (result ≡ made.answer) × (registers.new ≡ made.registers) × (csrs.new ≡ made.csrs) × (self.new ≡ record self.old { clic = made.clic }) }
        ensures kept { (code : ℕ) → result ≡ SystemEnd.Raise code
            → (registers.new ≡ registers.old) × (csrs.new ≡ csrs.old) × (self.new ≡ self.old) }
        ensures code { (code : ℕ) → result ≡ SystemEnd.Raise code → code < 4096 }
        ensures even { JumpsToEven result }
        ensures shape { self.new.clic.shape ≡ self.old.clic.shape }
    {
        system(ins, registers, csrs, &mut self.select)
    }

    /// Hands something to the device, and samples its lines.
    #[tactic(auto, unfolding(crate::specs::Outside::with_device))]
    pub fn stimulus(&mut self, what: Stimulus)
        ensures device { self.new ≡ with_device D.means self.old (D.means.after_stimulus self.old.device what) }
        ensures shape { self.new.clic.shape ≡ self.old.clic.shape }
    {
        self.device.stimulus(what);
        sample(&mut self.select, &self.device);
    }

    pub fn copy(&self, alloc: Global) -> Result<Outside<D>, WantOfMemory>
        ensures { IfOk result (λ o. o ≡ self.now) }
    {
        Ok(Outside {
            select: self.select.copy(alloc)?,
            device: self.device.copy(alloc)?,
        })
    }
}
