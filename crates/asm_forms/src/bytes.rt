// The bytes of an operation.
ghost use Rattle.std.specs.Prelude.{◌≡◌, ◌++◌, ◌≤◌, IsTrue, OnOk};
ghost use Rattle.hart_memory.specs.Memory.{zeros};
ghost use Rattle.std.specs.Int.{to_le_bytes, w16, w32};
ghost use Rattle.rv_encoding.specs.Fits.{can_be_spelled};
ghost use Rattle.rv_encoding.specs.Words.{word_of};
ghost use Rattle.asm_forms.specs.Operations.{bytes_of, operation_fits};

use crate::operation::Operation;
use hart_words::WantOfMemory;
use rv_encoding::{Ins, encode32};
use rvc_encoding::encode16;

fn push_zeros(bytes: &mut Vec<u8>, count: u32) -> Result<(), WantOfMemory>
    ensures { OnOk result (bytes.new.items ≡ bytes.old.items ++ zeros count) }
{
    for _ in 0..count {
        bytes.push(0)?;
    }
    Ok(())
}

fn push_word(bytes: &mut Vec<u8>, word: u32) -> Result<(), WantOfMemory>
    ensures { OnOk result (bytes.new.items ≡ bytes.old.items ++ to_le_bytes w32 word) }
{
    Ok(bytes.extend_from_slice(&word.to_le_bytes())?)
}

fn push_half(bytes: &mut Vec<u8>, half: u16) -> Result<(), WantOfMemory>
    ensures { OnOk result (bytes.new.items ≡ bytes.old.items ++ to_le_bytes w16 half) }
{
    Ok(bytes.extend_from_slice(&half.to_le_bytes())?)
}

fn push_pair(bytes: &mut Vec<u8>, first: &Ins, second: &Ins) -> Result<(), WantOfMemory>
    requires first { IsTrue (can_be_spelled first.now) }
    requires second { IsTrue (can_be_spelled second.now) }
    ensures { OnOk result (bytes.new.items ≡ bytes.old.items ++ (to_le_bytes w32 (word_of first.now) ++ to_le_bytes w32 (word_of second.now))) }
{
    push_word(bytes, encode32(first))?;
    push_word(bytes, encode32(second))
}

/// Puts the bytes of the operation at the end. After an error nothing is said of the bytes.
#[tactic(auto, unfolding(crate::specs::Operations::bytes_of, crate::specs::Operations::operation_fits))]
pub fn push_operation(bytes: &mut Vec<u8>, operation: &Operation) -> Result<(), WantOfMemory>
    requires { IsTrue (operation_fits operation.now) }
    ensures { OnOk result (bytes.new.items ≡ bytes.old.items ++ bytes_of operation.now) }
{
    match operation {
        Operation::Org(_) | Operation::Entry(_) => Ok(()),
        Operation::PutsByte(byte) => Ok(bytes.push(*byte)?),
        Operation::PutsHalf(half) => push_half(bytes, *half),
        Operation::PutsWord(word) => push_word(bytes, *word),
        Operation::PutsZeros(count) => push_zeros(bytes, *count),
        Operation::Long(instruction) => push_word(bytes, encode32(instruction)),
        Operation::Twice(first, second) => push_pair(bytes, first, second),
        Operation::Compressed(instruction) => push_half(bytes, encode16(instruction)),
    }
}
