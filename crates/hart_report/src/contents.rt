// The device's output and RAM, as a report tells them.
ghost use Rattle.std.specs.Prelude.{◌≡◌, ◌+◌, ◌-◌, ◌<◌, ◌≤◌, ◌++◌, Some, is_ok, length, take, drop, slice_get};
ghost use Rattle.board_outside.specs.Sink.{Writes};
ghost use Rattle.std.specs.Int.{div_ceil};
ghost use Rattle.hart_report.specs.Contents.{hex_bytes, count_line, output_line, output_lines, output_part, cell, cells, is_shown, row_line, row_text, row_texts, ram_part};

use crate::dead_bytes::DeadBytes;
use board_outside::{Sink, SinkFault};
use device_model::Device;
use hart_memory::laws::banks_are_whole;
use hart_memory::{BANK_LEN, Banks, RAM_BASE};
use hart_words::Line;

// How many bytes a line of output has, and a row of RAM.
const OUTPUT_LEN: u32 = 32;

const ROW_LEN: u32 = 16;

#[tactic(auto, unfolding(crate::specs::Contents::count_line))]
fn put_count<W: Sink>(count: u32, out: &mut W) -> Result<(), SinkFault>
    ensures { Writes (is_ok result) (W.told out.old) (W.told out.new) (count_line count) }
{
    let mut line = Line::new();
    line.put_text("out ");
    line.put_dec(u64::from(count));
    line.put_text("\n");
    out.put(line.bytes())
}

// Two digits for each byte of the device's output in the line that begins at a place.
fn fill_bytes<D: Device>(device: &D, start: u32, line: &mut Line)
    requires within { start ≤ length (D.means.output_of (D.state device.now)) }
    requires room { length line.old ≤ 2 }
    ensures bytes { line.new ≡ line.old ++ hex_bytes (take 32 (drop start (D.means.output_of (D.state device.now)))) }
    ensures len { length line.new ≤ 66 }
{
    let end = start + (device.output_len() - start).min(OUTPUT_LEN);
    for k in start..end {
        line.put_hex2(device.output(k));
    }
}

#[tactic(auto, unfolding(crate::specs::Contents::output_line))]
fn put_output_line<D: Device, W: Sink>(device: &D, start: u32, out: &mut W) -> Result<(), SinkFault>
    requires { start ≤ length (D.means.output_of (D.state device.now)) }
    ensures { Writes (is_ok result) (W.told out.old) (W.told out.new) (output_line (take 32 (drop start (D.means.output_of (D.state device.now))))) }
{
    let mut line = Line::new();
    line.put_text("o ");
    fill_bytes(device, start, &mut line);
    line.put_text("\n");
    out.put(line.bytes())
}

fn put_output_lines<D: Device, W: Sink>(device: &D, out: &mut W) -> Result<(), SinkFault>
    ensures { let bytes = D.means.output_of (D.state device.now) in
        Writes (is_ok result) (W.told out.old) (W.told out.new) (output_lines (div_ceil (length bytes) 32) bytes) }
{
    for row in 0..device.output_len().div_ceil(OUTPUT_LEN) {
        put_output_line(device, row * OUTPUT_LEN, out)?;
    }
    Ok(())
}

/// Writes how many bytes the device has put out, and then the bytes.
pub fn put_output<D: Device, W: Sink>(device: &D, out: &mut W) -> Result<(), SinkFault>
    ensures { Writes (is_ok result) (W.told out.old) (W.told out.new) (output_part (D.means.output_of (D.state device.now))) }
{
    put_count(device.output_len(), out)?;
    put_output_lines(device, out)
}

// The byte at a place in RAM.
fn ram_byte(banks: &Banks, k: u32) -> u8
    requires { k < BANK_LEN }
    ensures { slice_get banks.now.present.ram k ≡ Some result }
{
    banks_are_whole(banks);
    banks.byte(RAM_BASE + k)
}

// Whether some byte of a row is dead or not 0.
fn has_content<X: DeadBytes>(banks: &Banks, dead: &X, start: u32) -> bool
    requires { start + ROW_LEN ≤ BANK_LEN }
    ensures { result ≡ is_shown (X.dead dead.now) (RAM_BASE + start) (take ROW_LEN (drop start banks.now.present.ram)) }
{
    for k in start..start + ROW_LEN {
        if ram_byte(banks, k) != 0 {
            return true;
        }
        if dead.is_dead(RAM_BASE + k) {
            return true;
        }
    }
    false
}

// Two digits of a byte, or two dashes where it is dead.
fn put_cell(dead: bool, byte: u8, line: &mut Line)
    requires { length line.old ≤ 120 }
    ensures bytes { line.new ≡ line.old ++ cell dead byte }
    ensures len { length line.new ≡ length line.old + 2 }
{
    if dead {
        line.put_text("--");
    } else {
        line.put_hex2(byte);
    }
}

fn fill_cells<X: DeadBytes>(banks: &Banks, dead: &X, start: u32, line: &mut Line)
    requires within { start + ROW_LEN ≤ BANK_LEN }
    requires room { length line.old ≤ 13 }
    ensures bytes { line.new ≡ line.old ++ cells (X.dead dead.now) (RAM_BASE + start) (take ROW_LEN (drop start banks.now.present.ram)) }
    ensures len { length line.new ≤ 45 }
{
    for k in start..start + ROW_LEN {
        put_cell(dead.is_dead(RAM_BASE + k), ram_byte(banks, k), line);
    }
}

#[tactic(auto, unfolding(crate::specs::Contents::row_line))]
fn put_row_line<X: DeadBytes, W: Sink>(
    banks: &Banks,
    dead: &X,
    start: u32,
    out: &mut W,
) -> Result<(), SinkFault>
    requires { start + ROW_LEN ≤ BANK_LEN }
    ensures { Writes (is_ok result) (W.told out.old) (W.told out.new) (row_line (X.dead dead.now) (RAM_BASE + start) (take ROW_LEN (drop start banks.now.present.ram))) }
{
    let mut line = Line::new();
    line.put_text("ram ");
    line.put_hex8(RAM_BASE + start);
    line.put_text(" ");
    fill_cells(banks, dead, start, &mut line);
    line.put_text("\n");
    out.put(line.bytes())
}

#[tactic(auto, unfolding(crate::specs::Contents::row_text))]
fn put_row<X: DeadBytes, W: Sink>(
    banks: &Banks,
    dead: &X,
    start: u32,
    out: &mut W,
) -> Result<(), SinkFault>
    requires { start + ROW_LEN ≤ BANK_LEN }
    ensures { Writes (is_ok result) (W.told out.old) (W.told out.new) (row_text (X.dead dead.now) (RAM_BASE + start) (take ROW_LEN (drop start banks.now.present.ram))) }
{
    if has_content(banks, dead, start) {
        put_row_line(banks, dead, start, out)
    } else {
        Ok(())
    }
}

/// Writes the rows of RAM in which some byte is dead or not 0.
pub fn put_ram<X: DeadBytes, W: Sink>(banks: &Banks, dead: &X, out: &mut W) -> Result<(), SinkFault>
    ensures { Writes (is_ok result) (W.told out.old) (W.told out.new) (ram_part (X.dead dead.now) banks.now.present.ram) }
{
    for row in 0..BANK_LEN / ROW_LEN {
        put_row(banks, dead, row * ROW_LEN, out)?;
    }
    Ok(())
}
