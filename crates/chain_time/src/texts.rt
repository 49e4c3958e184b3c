// The lines that tell times.
ghost use Rattle.std.specs.Prelude.{◌≡◌, ◌≤◌, ◌^◌, ◌<◌, ◌++◌, IfOk, OnOk};
ghost use Rattle.chain_time.specs.Text.{figures as figures_text, called, time_line, burst_line, looping_line, times_text, fault_line as fault_text};

use crate::table_fault::TableFault;
use crate::timed::Timed;
use crate::times::Times;
use chain_lint::{TableBound, table_line};
use hart_words::{Line, Text, WantOfMemory};
use lab_names::Names;
use std::alloc::Global;

// The figures of an input.
#[tactic(auto, unfolding(crate::specs::Text::figures))]
fn figures(row: &Timed, latency: u64, response: u64) -> Line
    ensures { result ≡ figures_text row.now latency response }
{
    let mut line = Line::new();
    line.put_text(" path ");
    line.put_dec(u64::from(row.path));
    line.put_text(" latency ");
    line.put_dec(latency);
    line.put_text(" response ");
    line.put_dec(response);
    line.put_text("\n");
    line
}

// Adds what a handler is called. A name may be longer than a `Line`.
fn put_called(text: &mut Text, names: &Names, handler: u32) -> Result<(), WantOfMemory>
    ensures { OnOk result (text.new ≡ text.old ++ called names.now handler) }
{
    match names.at(handler) {
        Some(name) => text.push_bytes(name),
        None => {
            let mut line = Line::new();
            line.put_hex8(handler);
            text.push_bytes(line.bytes())
        }
    }
}

// Adds the line of an input.
#[tactic(auto, unfolding(crate::specs::Text::time_line))]
fn put_time(text: &mut Text, names: &Names, times: &Times, row: &Timed) -> Result<(), WantOfMemory>
    ensures { OnOk result (text.new ≡ text.old ++ time_line names.now times.now row.now) }
{
    let mut line = Line::new();
    line.put_text("time ");
    line.put_dec(u64::from(row.input));
    line.put_text(" ");
    text.push_bytes(line.bytes())?;
    put_called(text, names, row.handler)?;
    let figures = figures(row, times.latency(row), times.response(row));
    text.push_bytes(figures.bytes())
}

// The line of the burst.
#[tactic(auto, unfolding(crate::specs::Text::burst_line))]
fn burst_of(times: &Times) -> Line
    ensures { result ≡ burst_line times.now }
{
    let mut line = Line::new();
    line.put_text("burst ");
    line.put_dec(times.burst());
    line.put_text("\n");
    line
}

// And the one under the looping dispatcher.
#[tactic(auto, unfolding(crate::specs::Text::looping_line))]
fn looping_of(times: &Times) -> Line
    ensures { result ≡ looping_line times.now }
{
    let mut line = Line::new();
    line.put_text("looping burst ");
    line.put_dec(times.looping_burst());
    line.put_text("\n");
    line
}

/// All lines of a table. A handler is called by the name of its address, where that has one.
pub fn text_of_times(alloc: Global, names: &Names, times: &Times) -> Result<Text, WantOfMemory>
    ensures { IfOk result (λ text. text ≡ times_text names.now times.now) }
{
    let mut text = Text::new(alloc);
    for row in times.rows() {
        put_time(&mut text, names, times, row)?;
    }
    text.push_bytes(burst_of(times).bytes())?;
    text.push_bytes(looping_of(times).bytes())?;
    Ok(text)
}

/// The line of a table that is refused.
pub fn fault_line(fault: TableFault) -> Line
    ensures { result ≡ fault_text fault }
{
    match fault {
        TableFault::BadTable(at) => table_line(TableBound::BadTable(at)),
        TableFault::Refused { why, at } => table_line(TableBound::Refused { why, at }),
    }
}
