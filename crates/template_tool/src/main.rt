// The board of board_template, run by itself or as a chain.
#![tactic(auto)]

mod chaining;
mod command;
mod order;
mod order_reading;
mod program;
mod running;
mod working;

use board_outside::{FileShelf, StdSink};
use program::Program;
use std::env;
use std::process::ExitCode;
use tool_frame::run_program;

fn main(rt: HostRuntime) -> ExitCode {
    let mut shelf = FileShelf::new(&rt);
    let mut out = StdSink::new(&rt);
    let words = env::args(&rt);
    let code = run_program(rt.alloc(), words, &mut Program {}, &mut shelf, &mut out);
    ExitCode::from(code)
}
