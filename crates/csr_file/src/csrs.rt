// The twelve fields, and the registers as views of them.
ghost use Rattle.std.specs.Prelude.{◌≡◌, ◌↔◌, ◌%◌, ◌<◌, IsSome, IsTrue, OnSome, IfNone};
ghost use Rattle.csr_file.specs.CsrState.{reset_csrs, IsCsrState};
ghost use Rattle.csr_file.specs.Views.{mstatus, mcause, with_mstatus, with_mcause};
ghost use Rattle.csr_file.specs.Table.{read, written, is_read_only};

use hart_words::field;
use std::marker::Model;

// RV32 with the extensions C, I and M.
const MISA: u32 = 0x4000_1104;

// The mode in the low bits of mtvec that turns the CLIC on.
const CLIC_MODE: u32 = 3;

/// The control and status registers of a hart that has machine mode only, with a CLIC. They are
/// seen as twelve fields.
#[derive(Clone, Copy, Drop)]
pub struct Csrs {
    mie: bool,
    mpie: bool,
    mtvec_base: u32,
    mtvt: u32,
    mscratch: u32,
    mepc: u32,
    interrupt: bool,
    mpil: u8,
    exccode: u16,
    mtval: u32,
    mil: u8,
    th: u8,
}

impl Model for Csrs {
    ghost use Rattle.csr_file.specs.CsrState.{CsrState, IsCsrState};

    ghost Value = { CsrState };

    ghost use Rattle.csr_file.specs.Fields.{fields};

    ghost view = { fields };

    ghost invariant = { λ c. IsCsrState (fields c) };

    ghost inverse = { λ c. record { mie = c.mie; mpie = c.mpie; mtvec_base = c.mtvec_base; mtvt = c.mtvt; mscratch = c.mscratch; mepc = c.mepc; interrupt = c.interrupt; mpil = c.mpil; exccode = c.exccode; mtval = c.mtval; mil = c.mil; th = c.th } };
}

impl Csrs {
    /// Every field is 0.
    pub fn new() -> Csrs
        ensures { result ≡ reset_csrs }
    {
        Csrs {
            mie: false,
            mpie: false,
            mtvec_base: 0,
            mtvt: 0,
            mscratch: 0,
            mepc: 0,
            interrupt: false,
            mpil: 0,
            exccode: 0,
            mtval: 0,
            mil: 0,
            th: 0,
        }
    }

    /// Each field is in its range.
    pub fn in_range(&self)
        ensures { IsCsrState self.now }
    {
        let _ = &self.mil;
    }

    /// Reads the register of that number. mnxti, mscratchcsw and mscratchcswl are none of these
    /// registers, since reading them does more.
    #[tactic(auto, unfolding(crate::specs::Table::read))]
    pub fn read(&self, number: u16) -> Option<u32>
        ensures { result ≡ read self.now number }
    {
        match number {
            0x300 => Some(self.mstatus()),
            0x301 => Some(MISA),
            0x304 | 0x344 => Some(0),
            0x305 => Some(self.mtvec_base + CLIC_MODE),
            0x307 => Some(self.mtvt),
            0x340 => Some(self.mscratch),
            0x341 => Some(self.mepc),
            0x342 => Some(self.mcause()),
            0x343 => Some(self.mtval),
            0x347 => Some(u32::from(self.th)),
            0xFB1 => Some(u32::from(self.mil) << 24),
            0xF11..=0xF14 => Some(0),
            _ => None,
        }
    }

    /// Writes the register of that number. Bits that a register doesn't have are dropped.
    #[tactic(auto, unfolding(crate::specs::Table::written, crate::specs::Table::read))]
    pub fn write(&mut self, number: u16, value: u32) -> Option<()>
        ensures ok { OnSome result (written self.old number value ≡ Some self.new) }
        ensures none { IfNone result (written self.old number value ≡ None) }
        ensures kept { IfNone result (self.new ≡ self.old) }
        ensures writable { IsSome result
            ↔ (IsSome (read self.old number) × ¬ IsTrue (is_read_only number)) }
    {
        match number {
            0x300 => self.write_mstatus(value),
            0x301 | 0x304 | 0x344 => {}
            0x305 => self.mtvec_base = value - value % 64,
            0x307 => self.mtvt = value - value % 64,
            0x340 => self.mscratch = value,
            0x341 => self.mepc = value - value % 2,
            0x342 => self.write_mcause(value),
            0x343 => self.mtval = value,
            0x347 => self.th = field(value, 0, 8) as u8,
            _ => return None,
        }
        Some(())
    }

    fn mstatus(&self) -> u32
        ensures { result ≡ mstatus self.now }
    {
        u32::from(self.mie) * 0x8 + u32::from(self.mpie) * 0x80 + 0x1800
    }

    fn mcause(&self) -> u32
        ensures { result ≡ mcause self.now }
    {
        u32::from(self.interrupt) * 0x8000_0000
            + 0x3000_0000
            + u32::from(self.mpie) * 0x800_0000
            + u32::from(self.mpil) * 0x1_0000
            + u32::from(self.exccode)
    }

    fn write_mstatus(&mut self, value: u32)
        ensures { self.new ≡ with_mstatus self.old value }
    {
        self.mie = field(value, 3, 1) == 1;
        self.mpie = field(value, 7, 1) == 1;
    }

    fn write_mcause(&mut self, value: u32)
        ensures { self.new ≡ with_mcause self.old value }
    {
        self.interrupt = field(value, 31, 1) == 1;
        self.mpie = field(value, 27, 1) == 1;
        self.mpil = field(value, 16, 8) as u8;
        self.exccode = field(value, 0, 12) as u16;
    }

    /// Whether interrupts are enabled: MIE of mstatus.
    #[inline]
    pub fn mie(&self) -> bool
        ensures { result ≡ self.now.mie }
    {
        self.mie
    }

    #[inline]
    pub fn set_mie(&mut self, v: bool)
        ensures { self.new ≡ record self.old { mie = v } }
    {
        self.mie = v;
    }

    /// What MIE was before the trap: MPIE of mstatus and of mcause.
    #[inline]
    pub fn mpie(&self) -> bool
        ensures { result ≡ self.now.mpie }
    {
        self.mpie
    }

    #[inline]
    pub fn set_mpie(&mut self, v: bool)
        ensures { self.new ≡ record self.old { mpie = v } }
    {
        self.mpie = v;
    }

    /// Where traps go: mtvec without its mode.
    #[inline]
    pub fn mtvec_base(&self) -> u32
        ensures value { result ≡ self.now.mtvec_base }
        ensures aligned { result % 64 ≡ 0 }
    {
        self.mtvec_base
    }

    #[inline]
    pub fn set_mtvec_base(&mut self, v: u32)
        requires { v % 64 ≡ 0 }
        ensures { self.new ≡ record self.old { mtvec_base = v } }
    {
        self.mtvec_base = v;
    }

    /// Where the table of vectors begins.
    #[inline]
    pub fn mtvt(&self) -> u32
        ensures value { result ≡ self.now.mtvt }
        ensures aligned { result % 64 ≡ 0 }
    {
        self.mtvt
    }

    #[inline]
    pub fn set_mtvt(&mut self, v: u32)
        requires { v % 64 ≡ 0 }
        ensures { self.new ≡ record self.old { mtvt = v } }
    {
        self.mtvt = v;
    }

    /// A word that the hart leaves to software.
    #[inline]
    pub fn mscratch(&self) -> u32
        ensures { result ≡ self.now.mscratch }
    {
        self.mscratch
    }

    #[inline]
    pub fn set_mscratch(&mut self, v: u32)
        ensures { self.new ≡ record self.old { mscratch = v } }
    {
        self.mscratch = v;
    }

    /// Where the latest trap came from.
    #[inline]
    pub fn mepc(&self) -> u32
        ensures value { result ≡ self.now.mepc }
        ensures even { result % 2 ≡ 0 }
    {
        self.mepc
    }

    #[inline]
    pub fn set_mepc(&mut self, v: u32)
        requires { v % 2 ≡ 0 }
        ensures { self.new ≡ record self.old { mepc = v } }
    {
        self.mepc = v;
    }

    /// Whether the latest trap was an interrupt: bit 31 of mcause.
    #[inline]
    pub fn interrupt(&self) -> bool
        ensures { result ≡ self.now.interrupt }
    {
        self.interrupt
    }

    #[inline]
    pub fn set_interrupt(&mut self, v: bool)
        ensures { self.new ≡ record self.old { interrupt = v } }
    {
        self.interrupt = v;
    }

    /// The level before the latest trap: mpil of mcause.
    #[inline]
    pub fn mpil(&self) -> u8
        ensures { result ≡ self.now.mpil }
    {
        self.mpil
    }

    #[inline]
    pub fn set_mpil(&mut self, v: u8)
        ensures { self.new ≡ record self.old { mpil = v } }
    {
        self.mpil = v;
    }

    /// The code of the latest trap: exccode of mcause.
    #[inline]
    pub fn exccode(&self) -> u16
        ensures value { result ≡ self.now.exccode }
        ensures small { result < 4096 }
    {
        self.exccode
    }

    #[inline]
    pub fn set_exccode(&mut self, v: u16)
        requires { v < 4096 }
        ensures { self.new ≡ record self.old { exccode = v } }
    {
        self.exccode = v;
    }

    /// The value that came with the latest exception.
    #[inline]
    pub fn mtval(&self) -> u32
        ensures { result ≡ self.now.mtval }
    {
        self.mtval
    }

    #[inline]
    pub fn set_mtval(&mut self, v: u32)
        ensures { self.new ≡ record self.old { mtval = v } }
    {
        self.mtval = v;
    }

    /// The level that runs: mil of mintstatus.
    #[inline]
    pub fn mil(&self) -> u8
        ensures { result ≡ self.now.mil }
    {
        self.mil
    }

    #[inline]
    pub fn set_mil(&mut self, v: u8)
        ensures { self.new ≡ record self.old { mil = v } }
    {
        self.mil = v;
    }

    /// The threshold: only levels above it interrupt.
    #[inline]
    pub fn th(&self) -> u8
        ensures { result ≡ self.now.th }
    {
        self.th
    }

    #[inline]
    pub fn set_th(&mut self, v: u8)
        ensures { self.new ≡ record self.old { th = v } }
    {
        self.th = v;
    }
}
