// How a command ends.
ghost use Rattle.std.specs.Prelude.{◌≡◌, if◌then◌else◌, is_ok};
ghost use Rattle.tool_frame.specs.Due.{fault_due, usage_due};
ghost use Rattle.tool_frame.specs.Answers.{Ends, status_in};

use crate::status::Status;
use crate::writing::put_named;
use board_outside::{ShelfFault, Sink, SinkFault};

/// The status of a command whose text was written so.
pub fn ended(written: Result<(), SinkFault>, status: Status) -> Status
    ensures { result ≡ (if is_ok written then status else Status.SinkFailed) }
{
    match written {
        Ok(()) => status,
        Err(_) => Status::SinkFailed,
    }
}

/// The status of a command that did its work, or ended early.
pub fn status_in(end: Result<Status, Status>) -> Status
    ensures { result ≡ status_in end }
{
    match end {
        Ok(status) => status,
        Err(status) => status,
    }
}

/// Tells that the words are no command, by the program's usage line.
pub fn end_usage<W: Sink>(usage: &[u8], out: &mut W) -> Status
    ensures { Ends result (W.told out.old) (W.told out.new) (usage_due usage.now) }
{
    ended(out.put(usage), Status::Usage)
}

/// Tells that the file of that name wasn't given.
pub fn end_fault<W: Sink>(fault: ShelfFault, name: &str, out: &mut W) -> Status
    ensures { Ends result (W.told out.old) (W.told out.new) (fault_due name.now fault) }
{
    match fault {
        ShelfFault::Absent => ended(put_named(b"absent ", name, out), Status::Absent),
        ShelfFault::Failed => ended(put_named(b"shelf failed ", name, out), Status::ShelfFailed),
        ShelfFault::Memory => Status::Memory,
    }
}
