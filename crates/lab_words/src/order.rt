// What the words of a command ask for.
use crate::elf_order::ElfOrder;
use crate::names_order::NamesOrder;
use crate::sweep_order::SweepOrder;
use crate::trace_order::TraceOrder;

/// What the words of a command ask for.
#[derive(Drop)]
pub enum Order<'a> {
    Elf(ElfOrder<'a>),
    Names(NamesOrder<'a>),
    Trace(TraceOrder<'a>),
    Sweep(SweepOrder<'a>),
}
