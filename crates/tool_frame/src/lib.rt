// What every command of a program does alike: it reads its words, fetches its files, and ends with a status.
#![tactic(auto)]

mod arguments;
mod command;
mod ending;
mod file_kind;
mod file_reading;
mod finish;
mod options;
mod program;
mod status;
mod stop;
mod writing;

pub use arguments::{flag_argument, number_argument, option_argument, text_argument};
pub use command::Command;
pub use ending::{end_fault, end_usage, ended, status_in};
pub use file_kind::FileKind;
pub use file_reading::{end_refused, line_of_refusal, read_file};
pub use finish::Finish;
pub use options::{is_given, matches_taken, names, number_given, text_given, text_if_given};
pub use program::run_program;
pub use status::Status;
pub use stop::Stop;
