// What the words of a command ask for.
use crate::assemble_order::AssembleOrder;
use crate::bound_order::BoundOrder;
use crate::chain_order::ChainOrder;
use crate::disassemble_order::DisassembleOrder;
use crate::gen_order::GenOrder;
use crate::lint_order::LintOrder;
use crate::mem_order::MemOrder;
use crate::monitor_order::MonitorOrder;
use crate::run_order::RunOrder;
use crate::unmem_order::UnmemOrder;

/// What the words of a command ask for.
#[derive(Drop)]
pub enum Order<'a> {
    Run(RunOrder<'a>),
    Chain(ChainOrder<'a>),
    Monitor(MonitorOrder<'a>),
    Gen(GenOrder),
    Assemble(AssembleOrder<'a>),
    Disassemble(DisassembleOrder<'a>),
    Mem(MemOrder<'a>),
    Unmem(UnmemOrder<'a>),
    Lint(LintOrder<'a>),
    Bound(BoundOrder<'a>),
}
