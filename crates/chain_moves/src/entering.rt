// The tests of an Enter.
ghost use Rattle.std.specs.Prelude.{◌≡◌, ◌<◌, length, reverse};
ghost use Rattle.hart_memory.specs.Place.{is_in_ram};
ghost use Rattle.hart_memory.specs.declared.address_map.TheConstants.{BANK_LEN};
ghost use Rattle.chain_moves.specs.Bytes.{some_byte, in_frame};
ghost use Rattle.chain_moves.specs.Enter.{pointer_by, frame_below, table_address};
ghost use Rattle.chain_moves.specs.Judge.{judge_entry, claims_above};
ghost use Rattle.chain_moves.specs.Watched.{outside_of};

use crate::broken::Broken;
use crate::dead::hides_some;
use crate::entry::Entry;
use crate::frames::{meets, overlap};
use crate::mark::Mark;
use crate::slot::{BASE, FRAME_SIZE};
use crate::watch::Watch;
use clic_select::Choice;
use hart_memory::{BANK_LEN, RAM_BASE, place_of};

// Whether so many bytes begin and end in RAM.
fn in_ram(at: u32, width: u32) -> bool
    ensures { result ≡ is_in_ram at width }
{
    at >= RAM_BASE && u64::from(at) + u64::from(width) <= u64::from(RAM_BASE) + u64::from(BANK_LEN)
}

// Whether one of the four bytes at an address is in the frame.
#[tactic(auto, using(crate::proofs::Loops::some_frame))]
fn in_new_frame(frame: u32, at: u32) -> bool
    ensures { result ≡ some_byte (in_frame frame) at 4 }
{
    overlap(at, 4, frame)
}

/// What the tests of an Enter come to, by the live frames (the outermost first), the dead bytes,
/// whether the top is hardware-vectored, where interrupts go, the new frame's address, and the address
/// of the table's word.
#[tactic(auto, unfolding(crate::specs::Judge::judge_entry, crate::specs::Tests::first_broken))]
pub fn test_entry(
    marks: &[Mark],
    dead: &[bool],
    shv: bool,
    vector: u32,
    frame: u32,
    at: u32,
) -> Entry
    requires { length dead.now ≡ BANK_LEN }
    ensures { result ≡ judge_entry (reverse marks.now) dead.now shv vector frame at }
{
    if shv {
        return Entry::Refused(Broken::HardVectored);
    }
    if vector != BASE {
        return Entry::Refused(Broken::NoDispatcher);
    }
    if frame % 4 != 0 {
        return Entry::Refused(Broken::StackBad);
    }
    if !in_ram(frame, FRAME_SIZE) {
        return Entry::Refused(Broken::StackBad);
    }
    if meets(marks, frame, FRAME_SIZE) {
        return Entry::Refused(Broken::StackBad);
    }
    if at == 0 {
        return Entry::Refused(Broken::BadTable);
    }
    if !place_of(at, 4).is_in_memory() {
        return Entry::Refused(Broken::BadTable);
    }
    if hides_some(dead, at, 4) {
        return Entry::Refused(Broken::BadTable);
    }
    if in_new_frame(frame, at) {
        return Entry::Refused(Broken::BadTable);
    }
    Entry::Admitted(frame)
}

/// Whether the top could be entered at once from a Leave to that level, and isn't hardware-vectored.
pub fn claims_above(top: Option<Choice>, level: u8, threshold: u8) -> bool
    ensures { result ≡ claims_above top level threshold }
{
    match top {
        Some(choice) => choice.level > level && choice.level > threshold && !choice.shv,
        None => false,
    }
}

/// Where a table has the handler of an input.
pub fn table_address(table: u32, id: u32) -> u32
    ensures { result ≡ table_address table id }
{
    table.wrapping_add(id.wrapping_mul(4))
}

impl Watch {
    // The stack pointer below which the next frame is made.
    #[tactic(auto, using(crate::proofs::Turned::pointer_outer, crate::proofs::Turned::pointer_inner))]
    fn pointer(&self, sp: u32, scratch: u32) -> u32
        ensures { result ≡ pointer_by self.now.live sp scratch }
    {
        if self.is_foreground() { scratch } else { sp }
    }

    /// What the tests of an Enter come to, by the top, where interrupts go, where the table begins, sp,
    /// and the scratch register.
    pub(crate) fn entry_of(
        &self,
        top: Choice,
        vector: u32,
        table: u32,
        sp: u32,
        scratch: u32,
    ) -> Entry
        ensures { result ≡ judge_entry self.now.live self.now.dead top.shv vector (frame_below (pointer_by self.now.live sp scratch)) (table_address table top.id) }
    {
        let frame = self.pointer(sp, scratch).wrapping_sub(FRAME_SIZE);
        self.entry(top.shv, vector, frame, table_address(table, top.id))
    }

    /// The same for an Enter that is fused with the Leave before it: it has the frame that stands.
    pub(crate) fn entry_fused(&self, top: Choice, vector: u32, table: u32, sp: u32) -> Entry
        requires { 0 < length self.now.live }
        ensures { result ≡ judge_entry (outside_of self.now.live) self.now.dead top.shv vector sp (table_address table top.id) }
    {
        self.entry_outside(top.shv, vector, sp, table_address(table, top.id))
    }
}
