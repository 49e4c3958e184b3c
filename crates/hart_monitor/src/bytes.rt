// Bytes of memory, and of the interrupt controller.
ghost use Rattle.std.specs.Prelude.{◌≡◌, ◌+◌, ◌<◌, ◌≤◌, ◌++◌, length, is_ok, codes};
ghost use Rattle.board_outside.specs.Sink.{Writes};
ghost use Rattle.hart_words.specs.Hexadecimal.{hex2};
ghost use Rattle.hart_memory.specs.Access.{byte_at};
ghost use Rattle.clic_regs.specs.ClicState.{input_count};
ghost use Rattle.clic_regs.specs.Bytes.{input_byte, value_of};
ghost use Rattle.hart_monitor.specs.Bytes.{cell, cells, bytes_line, bytes_text, input_line};

use board_outside::{Sink, SinkFault};
use clic_regs::Clic;
use hart_memory::Banks;
use hart_words::Line;

// How many bytes a line has.
const ROW_LEN: u32 = 16;

// The offset of the first input's bytes, and how many bytes an input has.
const INPUTS_AT: u32 = 0x1000;

const INPUT_LEN: u32 = 4;

// Two digits of the byte at an address, or two dots outside memory.
fn put_cell(banks: &Banks, at: u32, line: &mut Line)
    requires { length line.old ≤ 120 }
    ensures bytes { line.new ≡ line.old ++ cell (byte_at banks.now.present at) }
    ensures len { length line.new ≡ length line.old + 2 }
{
    if banks.holds(at, 1) {
        line.put_hex2(banks.byte(at));
    } else {
        line.put_text("..");
    }
}

fn fill_cells(banks: &Banks, at: u32, count: u32, line: &mut Line)
    requires few { count ≤ ROW_LEN }
    requires room { length line.old ≤ 13 }
    ensures bytes { line.new ≡ line.old ++ cells banks.now.present count at }
    ensures len { length line.new ≤ 45 }
{
    for k in 0..count {
        put_cell(banks, at.wrapping_add(k), line);
    }
}

#[tactic(auto, unfolding(crate::specs::Bytes::bytes_line))]
fn put_row<W: Sink>(banks: &Banks, at: u32, count: u32, out: &mut W) -> Result<(), SinkFault>
    requires { count ≤ ROW_LEN }
    ensures { Writes (is_ok result) (W.told out.old) (W.told out.new) (bytes_line banks.now.present count at) }
{
    let mut line = Line::new();
    line.put_text("mem ");
    line.put_hex8(at);
    line.put_text(" ");
    fill_cells(banks, at, count, &mut line);
    line.put_text("\n");
    out.put(line.bytes())
}

/// Writes so many bytes of memory from an address on.
#[tactic(auto, unfolding(crate::specs::Bytes::bytes_text))]
pub(crate) fn put_bytes<W: Sink>(
    banks: &Banks,
    at: u32,
    count: u32,
    out: &mut W,
) -> Result<(), SinkFault>
    ensures { Writes (is_ok result) (W.told out.old) (W.told out.new) (bytes_text banks.now.present count at) }
{
    for row in 0..count.div_ceil(ROW_LEN) {
        let place = row * ROW_LEN;
        put_row(
            banks,
            at.wrapping_add(place),
            (count - place).min(ROW_LEN),
            out,
        )?;
    }
    Ok(())
}

// Byte k of the controller's four of an input.
fn input_byte(controller: &Clic, input: u32, k: u32) -> u8
    requires input { input < input_count controller.now }
    requires byte { k < INPUT_LEN }
    ensures { result ≡ value_of controller.now (input_byte input k) }
{
    let _inputs = controller.shape().inputs();
    controller
        .read(INPUTS_AT + INPUT_LEN * input + k)
        .unwrap_or(0)
}

// A space and two digits of such a byte.
fn put_input_byte(controller: &Clic, input: u32, k: u32, line: &mut Line)
    requires input { input < input_count controller.now }
    requires byte { k < INPUT_LEN }
    requires room { length line.old ≤ 120 }
    ensures bytes { line.new ≡ line.old ++ codes " " ++ hex2 (value_of controller.now (input_byte input k)) }
    ensures len { length line.new ≡ length line.old + 3 }
{
    line.put_text(" ");
    line.put_hex2(input_byte(controller, input, k));
}

/// Writes the controller's bytes of an input.
#[tactic(auto, unfolding(crate::specs::Bytes::input_line))]
pub(crate) fn put_input<W: Sink>(
    controller: &Clic,
    input: u32,
    out: &mut W,
) -> Result<(), SinkFault>
    requires { input < input_count controller.now }
    ensures { Writes (is_ok result) (W.told out.old) (W.told out.new) (input_line controller.now input) }
{
    let mut line = Line::new();
    line.put_text("clic ");
    line.put_dec(u64::from(input));
    put_input_byte(controller, input, 0, &mut line);
    put_input_byte(controller, input, 1, &mut line);
    put_input_byte(controller, input, 2, &mut line);
    put_input_byte(controller, input, 3, &mut line);
    line.put_text("\n");
    out.put(line.bytes())
}
