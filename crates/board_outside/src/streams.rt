// The loops over a real reader and a real writer.
ghost use Rattle.std.specs.Prelude.{◌≡◌, ◌≢◌, ◌+◌, ◌≤◌, vec_len, take, is_ok, IfOk, IfErr, OnErr, IfSome};
ghost use Rattle.std.specs.IoError.{error_kind};
ghost use Rattle.board_outside.specs.Shelf.{CountsFetch};
ghost use Rattle.board_outside.specs.Reads.{system_view, after_file};
ghost use Rattle.board_outside.specs.Puts.{Hands};

use crate::puts::Puts;
use crate::reads::Reads;
use crate::shelf::{MOST_FETCHED, ShelfFault};
use crate::sink::SinkFault;
use std::alloc::Global;
use std::io;
use std::io::{ErrorKind, Read, Write};

// How much is read at once.
const CHUNK: usize = 4096;

/// The first bytes of what is read, up to that many. A read that gives nothing ends it. It never
/// answers Absent, and Failed only where a read failed.
pub fn read_front<F: Read>(
    reads: &mut Reads,
    alloc: Global,
    file: &mut F,
    most: usize,
) -> Result<Vec<u8>, ShelfFault>
    ensures size { IfOk result (λ v. vec_len v ≤ most) }
    ensures bytes { IfOk result (λ v. IfSome (F.remaining file.old) (λ all. v.items ≡ take most all)) }
    ensures found { result ≡ Err ShelfFault.Absent → ⊥ }
    ensures counts { CountsFetch result (system_view reads.old) (system_view reads.new) }
    ensures given { IfOk result (λ v. reads.new ≡ after_file reads.old (vec_len v) most) }
    ensures unfinished { OnErr result (reads.new.ends ≡ reads.old.ends) }
{
    let mut bytes = Vec::new(alloc);
    let mut chunk = [0u8; CHUNK];
    while bytes.len() < most {
        let room = (most - bytes.len()).min(CHUNK);
        let piece = &mut chunk[..room];
        let n = reads.read(file, piece)?;
        if n == 0 {
            break;
        }
        if bytes.extend_from_slice(&piece[..n]).is_err() {
            return Err(ShelfFault::Memory);
        }
    }
    Ok(bytes)
}

/// The first bytes of a file that was to be opened, up to one more than the limit.
pub fn fetched<F: Read + Drop>(
    reads: &mut Reads,
    alloc: Global,
    opened: io::Result<F>,
    limit: u64,
) -> Result<Vec<u8>, ShelfFault>
    requires { limit ≤ MOST_FETCHED }
    ensures size { IfOk result (λ v. vec_len v ≤ limit + 1) }
    ensures bytes { IfOk opened (λ file. IfOk result (λ v. IfSome (F.remaining file) (λ all. v.items ≡ take (limit + 1) all))) }
    ensures found { IfOk opened (λ _. result ≡ Err ShelfFault.Absent → ⊥) }
    // A file that isn't opened is absent where it isn't found.
    ensures absent { IfErr opened (λ e. error_kind e ≡ ErrorKind.NotFound → result ≡ Err ShelfFault.Absent) }
    ensures failed { IfErr opened (λ e. error_kind e ≢ ErrorKind.NotFound → result ≡ Err ShelfFault.Failed) }
    ensures counts { CountsFetch result (system_view reads.old) (system_view reads.new) }
    ensures given { IfOk result (λ v. reads.new ≡ after_file reads.old (vec_len v) (limit + 1)) }
    ensures unfinished { OnErr result (reads.new.ends ≡ reads.old.ends) }
{
    match opened {
        Ok(mut file) => read_front(reads, alloc, &mut file, limit as usize + 1),
        Err(error) => Err(reads.refuse(&error)),
    }
}

/// Hands over all the bytes, or a front of them up to a write that failed.
pub fn write_whole<W: Write>(puts: &mut Puts, writer: &mut W, bytes: &[u8]) -> Result<(), SinkFault>
    ensures { Hands (is_ok result) (W.contents writer.old) (W.contents writer.new) puts.old puts.new bytes.now }
{
    let mut done = 0;
    while done < bytes.len() {
        done += puts.write(writer, &bytes[done..])?;
    }
    Ok(())
}
