// The data of the packets that answer.
ghost use Rattle.std.specs.Prelude.{◌≡◌, ◌++◌, ◌<◌, length, codes, OnOk};
ghost use Rattle.std.specs.Fmt.{digit_glyph};
ghost use Rattle.hart_words.specs.Decimal.{decimal};
ghost use Rattle.hart_words.specs.Hexadecimal.{hex8};
ghost use Rattle.lab_packets.specs.Frames.{framed};
ghost use Rattle.lab_packets.specs.Answers.{word_digits, words_digits, console_data, console_pieces, console_frames, hex_upto, stop_note, stop_data, help_front, help_behind, help_text, no_such_text};

use crate::digits::{put_byte, put_digit, put_digits};
use crate::frames::put_frame;
use crate::stop::Stop;
use crate::texts::{behind, front_of};
use hart_words::{Line, Text, WantOfMemory};
use std::alloc::Global;

/// One frame shows so many bytes at most.
const MOST_SHOWN: usize = 1_024;

/// Adds a word: two digits for each byte, the lowest first.
#[tactic(auto, unfolding(crate::specs::Answers::word_digits))]
pub fn put_word(text: &mut Text, word: u32) -> Result<(), WantOfMemory>
    ensures { OnOk result (text.new ≡ text.old ++ word_digits word) }
{
    put_byte(text, (word % 0x100) as u8)?;
    put_byte(text, (word / 0x100 % 0x100) as u8)?;
    put_byte(text, (word / 0x1_0000 % 0x100) as u8)?;
    put_byte(text, (word / 0x100_0000) as u8)
}

/// Adds words, one after the other.
pub fn put_words(text: &mut Text, words: &[u32]) -> Result<(), WantOfMemory>
    ensures { OnOk result (text.new ≡ text.old ++ words_digits words.now) }
{
    for word in words {
        put_word(text, *word)?;
    }
    Ok(())
}

// The data of a packet that shows bytes on gdb's console.
#[tactic(auto, unfolding(crate::specs::Answers::console_data))]
fn put_console(text: &mut Text, bytes: &[u8]) -> Result<(), WantOfMemory>
    ensures { OnOk result (text.new ≡ text.old ++ console_data bytes.now) }
{
    text.push_bytes(b"O")?;
    put_digits(text, bytes)
}

// A frame that shows bytes on gdb's console.
fn put_shown(alloc: Global, text: &mut Text, bytes: &[u8]) -> Result<(), WantOfMemory>
    ensures { OnOk result (text.new ≡ text.old ++ framed (console_data bytes.now)) }
{
    let mut shown = Text::new(alloc);
    put_console(&mut shown, bytes)?;
    put_frame(text, shown.bytes())
}

// Frames that show bytes in pieces of so many.
#[tactic(auto, using(crate::proofs::HexText::pieces_step, crate::proofs::HexText::no_pieces))]
fn put_pieces(alloc: Global, text: &mut Text, size: usize, bytes: &[u8]) -> Result<(), WantOfMemory>
    requires { 0 < size }
    ensures { OnOk result (text.new ≡ text.old ++ console_pieces (length bytes.now) size bytes.now) }
{
    let mut rest = bytes;
    while !rest.is_empty() {
        put_shown(alloc, text, front_of(rest, size))?;
        rest = behind(rest, size);
    }
    Ok(())
}

/// Adds frames that show all these bytes on gdb's console.
pub fn put_console_frames(alloc: Global, text: &mut Text, bytes: &[u8]) -> Result<(), WantOfMemory>
    ensures { OnOk result (text.new ≡ text.old ++ console_frames bytes.now) }
{
    put_pieces(alloc, text, MOST_SHOWN, bytes)
}

// Hexadecimal without leading zeros, in so many digits at most.
#[tactic(auto, using(crate::proofs::HexText::hex_step))]
fn put_hex(text: &mut Text, digits: u32, value: u32) -> Result<(), WantOfMemory>
    ensures { OnOk result (text.new ≡ text.old ++ hex_upto digits value) }
{
    if digits == 0 {
        return Ok(());
    }
    if value >= 16 {
        put_hex(text, digits - 1, value / 16)?;
    }
    put_digit(text, (value % 16) as u8)
}

// Words, a number in decimal, and words.
fn put_count(text: &mut Text, before: &str, count: u64, behind: &str) -> Result<(), WantOfMemory>
    ensures { OnOk result (text.new ≡ text.old ++ (before.now ++ decimal count ++ behind.now)) }
{
    let mut line = Line::new();
    line.put_dec(count);
    text.push_bytes(before.as_bytes())?;
    text.push_bytes(line.bytes())?;
    text.push_bytes(behind.as_bytes())
}

// Words, a word as eight digits, and words.
fn put_place(text: &mut Text, before: &str, at: u32, behind: &str) -> Result<(), WantOfMemory>
    ensures { OnOk result (text.new ≡ text.old ++ (before.now ++ hex8 at ++ behind.now)) }
{
    let mut line = Line::new();
    line.put_hex8(at);
    text.push_bytes(before.as_bytes())?;
    text.push_bytes(line.bytes())?;
    text.push_bytes(behind.as_bytes())
}

/// Adds what gdb's console shows before a stop, if anything.
#[tactic(auto, unfolding(crate::specs::Answers::stop_note))]
pub fn put_stop_note(text: &mut Text, stop: Stop) -> Result<(), WantOfMemory>
    ensures { OnOk result (text.new ≡ text.old ++ stop_note stop) }
{
    match stop {
        Stop::Trap | Stop::Watched(_) | Stop::Begin => Ok(()),
        Stop::Halted { code, steps } => {
            put_place(text, "halted with code ", code, " after ")?;
            put_count(text, "", steps, " steps\n")
        }
        Stop::Exception { code, at } => {
            put_count(text, "exception ", u64::from(code), " at ")?;
            put_place(text, "", at, "\n")
        }
        Stop::NoVector(input) => put_count(
            text,
            "the vector of input ",
            u64::from(input),
            " isn't in memory\n",
        ),
        Stop::Bounded(steps) => put_count(text, "bound: ", u64::from(steps), " steps made\n"),
    }
}

// What is told of a watched byte.
fn put_watched(text: &mut Text, at: u32) -> Result<(), WantOfMemory>
    ensures { OnOk result (text.new ≡ text.old ++ (codes "T05watch:" ++ hex_upto 8 at ++ codes ";")) }
{
    text.push_bytes(b"T05watch:")?;
    put_hex(text, 8, at)?;
    text.push_bytes(b";")
}

/// Adds the data of a stop.
#[tactic(auto, unfolding(crate::specs::Answers::stop_data))]
pub fn put_stop(text: &mut Text, stop: Stop) -> Result<(), WantOfMemory>
    ensures { OnOk result (text.new ≡ text.old ++ stop_data stop) }
{
    match stop {
        Stop::Watched(at) => put_watched(text, at),
        Stop::Begin => text.push_bytes(b"T05replaylog:begin;"),
        Stop::Halted { .. } => text.push_bytes(b"T05replaylog:end;"),
        Stop::Bounded(_) => text.push_bytes(b"S02"),
        Stop::Trap | Stop::Exception { .. } | Stop::NoVector(_) => text.push_bytes(b"S05"),
    }
}

/// Adds what `monitor` tells of a text that is no command.
pub fn put_no_such(text: &mut Text) -> Result<(), WantOfMemory>
    ensures { OnOk result (text.new ≡ text.old ++ no_such_text) }
{
    text.push_bytes(b"no such command; monitor help tells them\n")
}

#[tactic(auto, unfolding(crate::specs::Answers::help_front))]
fn help_front() -> &'static str
    ensures { result.now ≡ help_front }
{
    "steps              the steps made; in a chain the bodies too, and the live services, input:level, the innermost last
bound N            a continue makes at most N steps (now "
}

#[tactic(auto, unfolding(crate::specs::Answers::help_behind))]
fn help_behind() -> &'static str
    ensures { result.now ≡ help_behind }
{
    ")
until N            a continue, to either side, stops where N steps are made
until-body N       the same, where N bodies are made
until off          neither
clic I             pending, enable, attribute and control of input I
line I V  rx B  pins V  tick N    what a scenario's line says, now
"
}

/// Adds the commands of `monitor`, with the bound of a continue.
#[tactic(auto, unfolding(crate::specs::Answers::help_text))]
pub fn put_help(text: &mut Text, bound: u32) -> Result<(), WantOfMemory>
    ensures { OnOk result (text.new ≡ text.old ++ help_text bound) }
{
    put_count(text, help_front(), u64::from(bound), help_behind())
}
