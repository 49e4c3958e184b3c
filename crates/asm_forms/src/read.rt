// A line that was read.
use crate::asm_why::AsmWhy;
use crate::task::Task;

/// The label that the line defines, and what else it asks for, or why that is refused.
#[derive(Clone, Copy, Drop)]
pub struct Read<'a> {
    pub label: Option<&'a str>,
    pub statement: Result<Option<Task<'a>>, AsmWhy>,
}
