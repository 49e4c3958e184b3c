// Reads and writes that are tried again where a signal interrupts them.
ghost use Rattle.std.specs.Prelude.{◌≡◌, ◌≢◌, length, IfErr, MatchBool};
ghost use Rattle.std.specs.Io.{ReadsAtMost, WritesAtMost};
ghost use Rattle.std.specs.Io.KnownBytes.{ReadConsumes, WriteAppends};
ghost use Rattle.std.specs.IoError.{error_kind};

use std::io::{Error, ErrorKind, Read, Result, Write};

/// How often one read or one write is tried.
pub const MOST_TRIES: u32 = 16;

// The error of what was interrupted at each try.
fn given_up() -> Error
    ensures { error_kind result ≡ ErrorKind.Other }
{
    Error::other("interrupted too often")
}

fn is_interrupted(error: &Error) -> bool
    ensures { MatchBool result (error_kind error.now ≡ ErrorKind.Interrupted) (error_kind error.now ≢ ErrorKind.Interrupted) }
{
    error.kind() == ErrorKind::Interrupted
}

/// Reads once.
pub fn read_through<F: Read>(file: &mut F, piece: &mut [u8]) -> Result<usize>
    ensures size { length piece.new ≡ length piece.old }
    ensures bound { ReadsAtMost result piece.new }
    ensures bytes { ReadConsumes (F.remaining file.old) (F.remaining file.new) result piece.new }
    // What is interrupted is tried again.
    ensures retried { IfErr result (λ e. error_kind e ≢ ErrorKind.Interrupted) }
{
    for _ in 0..MOST_TRIES {
        match file.read(piece) {
            Ok(n) => return Ok(n),
            Err(e) => {
                if !is_interrupted(&e) {
                    return Err(e);
                }
            }
        }
    }
    Err(given_up())
}

/// Writes once.
pub fn write_through<W: Write>(writer: &mut W, piece: &[u8]) -> Result<usize>
    ensures bound { WritesAtMost result piece.now }
    ensures bytes { WriteAppends (W.contents writer.old) (W.contents writer.new) result piece.now }
    // What is interrupted is tried again.
    ensures retried { IfErr result (λ e. error_kind e ≢ ErrorKind.Interrupted) }
{
    for _ in 0..MOST_TRIES {
        match writer.write(piece) {
            Ok(n) => return Ok(n),
            Err(e) => {
                if !is_interrupted(&e) {
                    return Err(e);
                }
            }
        }
    }
    Err(given_up())
}
