// The commands `elf`, `names`, `trace` and `sweep`.
#![tactic(auto)]

mod command;
mod program;
mod terminal;
mod usage;

use board_outside::{FileShelf, StdSink};
use program::Program;
use std::env;
use std::process::ExitCode;
use terminal::Terminal;
use tool_frame::run_program;

fn main(rt: HostRuntime) -> ExitCode {
    let mut program = Program::new(Terminal::new(&rt, rt.stderr()));
    let mut shelf = FileShelf::new(&rt);
    let mut out = StdSink::new(&rt);
    let code = run_program(
        rt.alloc(),
        env::args(&rt),
        &mut program,
        &mut shelf,
        &mut out,
    );
    ExitCode::from(code)
}
