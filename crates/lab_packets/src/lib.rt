// gdb's remote protocol: frames, packets and answers. It knows no board.
#![tactic(auto)]

mod answers;
mod command;
mod commands;
mod digits;
mod frame_place;
mod frame_reader;
mod frames;
mod heard;
pub mod laws;
mod numbers;
mod packet;
mod packets;
mod point;
mod reply;
mod stop;
mod target;
#[cfg(test)]
mod tests;
mod texts;

pub use answers::{
    put_console_frames, put_help, put_no_such, put_stop, put_stop_note, put_word, put_words,
};
pub use command::Command;
pub use commands::command_of;
pub use digits::{byte_of, bytes_of, put_digits};
pub use frame_place::FramePlace;
pub use frame_reader::{FrameReader, MOST_DATA};
pub use frames::put_frame;
pub use heard::Heard;
pub use packet::Packet;
pub use packets::packet_of;
pub use point::Point;
pub use reply::Reply;
pub use stop::Stop;
pub use target::{put_piece, target_text};
