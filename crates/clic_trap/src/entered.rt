// Interrupt entry.
ghost use Rattle.std.specs.Prelude.{◌≡◌, ◌↔◌, ◌<◌, ◌%◌, ℕ, IsTrue, Some, true, false};
ghost use Rattle.hart_memory.specs.Place.{holds};
ghost use Rattle.clic_regs.specs.ClicState.{input_count};
ghost use Rattle.clic_select.specs.Top.{top};
ghost use Rattle.clic_trap.specs.Entry.{entered, entered_by, interrupted, vector_address, GoesToEven};

use crate::vector::vector_address;
use clic_select::{Choice, Selector};
use csr_file::Csrs;
use hart_memory::Banks;

/// What became of an interrupt entry.
#[derive(Clone, Copy, Debug, PartialEq, Eq, Drop)]
pub enum Entered {
    /// The hart goes on at this address.
    At(u32),
    /// The vector of this input is not in memory.
    VectorFault(u32),
}

/// Enters the interrupt that the controller selects. A hardware-vectored one takes its address from the
/// table of vectors.
#[inline]
#[tactic(auto, unfolding(crate::specs::Entry::entered))]
pub fn enter_interrupt(
    csrs: &mut Csrs,
    select: &mut Selector,
    banks: &Banks,
    choice: Choice,
    pc: u32,
) -> Entered
    requires top { top select.old ≡ Some choice }
    requires even { pc % 2 ≡ 0 }
    ensures outcome { record { answer = result; csrs = csrs.new; clic = select.new } ≡ entered csrs.old select.old banks.now.present choice pc }
    ensures fault { (id : ℕ) → (result ≡ Entered.VectorFault id)
        ↔ ((id ≡ choice.id) × IsTrue choice.shv × (holds (vector_address csrs.old choice.id) 4 ≡ false)) }
    ensures kept { (id : ℕ) → result ≡ Entered.VectorFault id → (csrs.new ≡ csrs.old) × (select.new ≡ select.old) }
    ensures even_pc { GoesToEven result }
{
    is_an_input(select, choice);
    if choice.shv {
        enter_through_table(csrs, select, banks, choice, pc)
    } else {
        begin_interrupt(csrs, choice, pc);
        Entered::At(csrs.mtvec_base())
    }
}

// The input that the controller selects is one of those that it has.
#[inline]
fn is_an_input(select: &Selector, choice: Choice)
    requires { top select.now ≡ Some choice }
    ensures input { choice.id < input_count select.now }
    ensures number { choice.id < 1024 }
{
    let _ = select.shape();
}

// Enters a hardware-vectored interrupt.
fn enter_through_table(
    csrs: &mut Csrs,
    select: &mut Selector,
    banks: &Banks,
    choice: Choice,
    pc: u32,
) -> Entered
    requires input { choice.id < input_count select.old }
    requires number { choice.id < 1024 }
    requires even { pc % 2 ≡ 0 }
    ensures outcome { record { answer = result; csrs = csrs.new; clic = select.new } ≡ entered_by true csrs.old select.old banks.now.present choice pc }
    ensures fault { (id : ℕ) → (result ≡ Entered.VectorFault id) ↔ ((id ≡ choice.id) × (holds (vector_address csrs.old choice.id) 4 ≡ false)) }
    ensures kept { (id : ℕ) → result ≡ Entered.VectorFault id → (csrs.new ≡ csrs.old) × (select.new ≡ select.old) }
    ensures even_pc { GoesToEven result }
{
    let at = vector_address(csrs, choice.id);
    if !banks.holds(at, 4) {
        return Entered::VectorFault(choice.id);
    }
    let vector = banks.load(at, 4);
    begin_interrupt(csrs, choice, pc);
    select.claim_clear(choice.id);
    Entered::At(vector - vector % 2)
}

// The changes that every interrupt entry makes.
#[inline]
fn begin_interrupt(csrs: &mut Csrs, choice: Choice, pc: u32)
    requires number { choice.id < 1024 }
    requires even { pc % 2 ≡ 0 }
    ensures { csrs.new ≡ interrupted csrs.old choice pc }
{
    csrs.set_mepc(pc);
    csrs.set_mpil(csrs.mil());
    csrs.set_mil(choice.level);
    csrs.set_mpie(csrs.mie());
    csrs.set_mie(false);
    csrs.set_interrupt(true);
    csrs.set_exccode(choice.id as u16);
}
