// Which instructions the convention permits.
ghost use Rattle.std.specs.Prelude.{◌≡◌};
ghost use Rattle.chain_moves.specs.Convention.{is_permitted, is_permitted_csr};

use rv_encoding::{CsrOp, Ins};

const MSTATUS: u16 = 0x300;

const MTVEC: u16 = 0x305;

const MTVT: u16 = 0x307;

const MSCRATCH: u16 = 0x340;

const MINTTHRESH: u16 = 0x347;

// MIE stands in bit 3 of mstatus.
const MIE: u8 = 8;

fn is_permitted_csr(op: CsrOp, rd: u8, source: u8, csr: u16) -> bool
    ensures { result ≡ is_permitted_csr op rd source csr }
{
    match op {
        CsrOp::Csrrsi | CsrOp::Csrrci => rd == 0 && csr == MSTATUS && source == MIE,
        CsrOp::Csrrw => rd == 0
            && (csr == MINTTHRESH || csr == MTVEC || csr == MTVT || csr == MSCRATCH),
        _ => false,
    }
}

/// Whether an instruction is one that the foreground, or else a handler, may execute.
pub fn is_permitted(foreground: bool, ins: &Ins) -> bool
    ensures { result ≡ is_permitted foreground ins.now }
{
    match *ins {
        Ins::Csr {
            op,
            rd,
            source,
            csr,
        } => foreground && is_permitted_csr(op, rd, source, csr),
        Ins::Mret => false,
        _ => true,
    }
}
