// The commands `asm`, `disasm`, `run`, `chain`, `monitor`, `gen`, `mem`, `unmem`, `lint` and `bound`.
#![tactic(auto)]

#[cfg(test)]
mod bench_tests;
#[cfg(test)]
mod board_tests;
#[cfg(test)]
mod case;
mod command;
#[cfg(test)]
mod images;
mod program;
#[cfg(test)]
mod put_tests;
#[cfg(test)]
mod shelf_tests;
mod usage;

use board_outside::{FileShelf, StdSink};
use program::Program;
use std::env;
use std::process::ExitCode;
use tool_frame::run_program;
use tool_work::Bench;

fn main(rt: HostRuntime) -> ExitCode {
    let mut program = Program {
        bench: Bench::new(),
    };
    let mut shelf = FileShelf::new(&rt);
    let mut out = StdSink::new(&rt);
    let code = run_program(
        rt.alloc(),
        env::args(&rt),
        &mut program,
        &mut shelf,
        &mut out,
    );
    ExitCode::from(code)
}
