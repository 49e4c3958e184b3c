// A program around its command.
ghost use Rattle.std.specs.Prelude.{◌≡◌, IfOk, IfErr};
ghost use Rattle.std.specs.Vec.Iter.{into_iter_items};
ghost use Rattle.tool_frame.specs.Programs.{RunsWith, IsUnread, words_in};

use crate::command::Command;
use crate::finish::Finish;
use crate::status::Status;
use board_outside::{Shelf, Words};
use hart_words::WantOfMemory;
use std::alloc::Global;
use std::env::Args;
use std::io;

// The words find no memory.
const WORDS_WANT_MEMORY: u8 = 7;

// The words can't be read for another cause.
const UNREAD: u8 = 12;

// The words are the arguments but the first, which is the program's name.
fn words_of(alloc: Global, args: Args) -> Result<Words, WantOfMemory>
    ensures { IfOk result (λ words. words ≡ words_in (into_iter_items args)) }
{
    let mut rest = args;
    let mut words = Words::new(alloc);
    let _ = rest.next();
    for _ in 0..rest.len() {
        if let Some(word) = rest.next() {
            words.push(word.as_str())?;
        }
    }
    Ok(words)
}

/// Does what the arguments say, and answers the exit code.
pub fn run_program<C: Command<F, W>, F: Shelf, W: Finish>(
    alloc: Global,
    args: io::Result<Args>,
    command: &mut C,
    shelf: &mut F,
    out: &mut W,
) -> u8
    ensures runs { IfOk args (λ given. RunsWith C.obeys W.finishes (words_in (into_iter_items given)) result shelf.old shelf.new out.old out.new) }
    ensures unread { IfErr args (λ error. IsUnread result shelf.old shelf.new out.old out.new) }
{
    let args = match args {
        Ok(args) => args,
        Err(e) => {
            return if e.kind() == io::ErrorKind::OutOfMemory {
                WORDS_WANT_MEMORY
            } else {
                UNREAD
            };
        }
    };
    let Ok(words) = words_of(alloc, args) else {
        return WORDS_WANT_MEMORY;
    };
    let status = command.obey(alloc, &words, shelf, out);
    match out.finish() {
        Ok(()) => status.code(),
        Err(_) => Status::SinkFailed.code(),
    }
}
