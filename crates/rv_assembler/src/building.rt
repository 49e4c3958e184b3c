// The second pass: bytes.
ghost use Rattle.std.specs.Prelude.{◌≡◌};
ghost use Rattle.rv_assembler.specs.Symbols.{address_of};
ghost use Rattle.rv_assembler.specs.Source.{nothing_built, resolved, moved, entry_by, second_task, second_line, task_of, distance, known, known_near};
ghost use Rattle.asm_fields.specs.Seen.{seen_number};
ghost use Rattle.asm_forms.specs.Seen.{seen_task, seen_reading, seen_task_option};
ghost use Rattle.rv_assembler.specs.Stops.{Becomes};

use crate::line_work::LineWork;
use crate::stop::Stop;
use crate::symbols::Symbols;
use asm_fields::Number;
use asm_forms::{
    AsmWhy, Extent, Operation, Read, Task, extent_of, is_fit, operation_of, push_operation,
    read_line,
};
use std::alloc::Global;
use std::marker::Model;

/// The place of the next line, the entry, and the bytes of all lines before it.
#[derive(Drop)]
pub(crate) struct Building {
    pub(crate) place: u32,
    pub(crate) entry: u32,
    pub(crate) bytes: Vec<u8>,
}

impl Model for Building {
    ghost use Rattle.rv_assembler.specs.Source.{Built};

    ghost Value = { Built };

    ghost view = { λ b. record { place = b.place; entry = b.entry; bytes = b.bytes.items } };
}

fn address(symbols: &Symbols, name: &str) -> Result<u32, AsmWhy>
    ensures { result ≡ known (address_of symbols.now name.now) }
{
    match symbols.address_of(name) {
        Some(address) => Ok(address),
        None => Err(AsmWhy::UnknownLabel),
    }
}

fn distance(place: u32, target: u32) -> u32
    ensures { result ≡ distance place target }
{
    target.wrapping_sub(place)
}

fn near(symbols: &Symbols, place: u32, name: &str) -> Result<u32, AsmWhy>
    ensures { result ≡ known_near place (address_of symbols.now name.now) }
{
    match symbols.address_of(name) {
        Some(address) => Ok(distance(place, address)),
        None => Err(AsmWhy::UnknownLabel),
    }
}

// The number of a line at this place.
#[tactic(auto, unfolding(crate::specs::Source::resolved))]
fn resolved(symbols: &Symbols, place: u32, number: Number) -> Result<u32, AsmWhy>
    ensures { result ≡ resolved symbols.now place (seen_number number.entry) }
{
    match number {
        Number::Given(n) => Ok(n),
        Number::Absolute(name) => address(symbols, name),
        Number::Near(target) => Ok(distance(place, target)),
        Number::NearLabel(name) => near(symbols, place, name),
    }
}

fn moved(extent: Extent, place: u32) -> u32
    ensures { result ≡ moved extent place }
{
    match extent {
        Extent::Org(to) => to,
        Extent::Entry => place,
        Extent::Takes(count) => place.wrapping_add(count),
    }
}

fn entry_by(operation: &Operation, entry: u32) -> u32
    ensures { result ≡ entry_by operation.now entry }
{
    match operation {
        Operation::Entry(address) => *address,
        Operation::Org(_) | Operation::PutsByte(_) | Operation::PutsHalf(_) => entry,
        Operation::PutsWord(_) | Operation::PutsZeros(_) | Operation::Long(_) => entry,
        Operation::Twice(_, _) | Operation::Compressed(_) => entry,
    }
}

// What a line asks for, where it was read.
fn task_of<'a>(read: Result<Read<'a>, AsmWhy>) -> Option<Task<'a>>
    ensures { seen_task_option result ≡ task_of (seen_reading read.entry) }
{
    match read {
        Ok(read) => match read.statement {
            Ok(task) => task,
            Err(_) => None,
        },
        Err(_) => None,
    }
}

impl Building {
    pub(crate) fn new(alloc: Global) -> Building
        ensures { result ≡ nothing_built }
    {
        Building {
            place: 0,
            entry: 0,
            bytes: Vec::new(alloc),
        }
    }

    fn build(&mut self, symbols: &Symbols, task: Task) -> Result<(), Stop>
        ensures { Becomes result self.new (second_task symbols.now self.old (seen_task task.entry)) }
    {
        let number = match resolved(symbols, self.place, task.operands.number) {
            Ok(number) => number,
            Err(why) => return Err(Stop::Refused(why)),
        };
        let made = operation_of(task.kind, task.operands, number);
        if !is_fit(&made) {
            return Err(Stop::Refused(AsmWhy::OutOfReach));
        }
        push_operation(&mut self.bytes, &made)?;
        self.place = moved(extent_of(task.kind, task.operands.amount), self.place);
        self.entry = entry_by(&made, self.entry);
        Ok(())
    }
}

impl LineWork for Building {
    type Context = Symbols;

    ghost step = { second_line };

    // The bytes of a line.
    #[tactic(auto, unfolding(crate::specs::Source::second_line))]
    fn do_line(&mut self, context: &Symbols, line: &[u8]) -> Result<(), Stop> {
        match task_of(read_line(line)) {
            Some(task) => self.build(context, task),
            None => Ok(()),
        }
    }
}
