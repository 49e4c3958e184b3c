// The first pass: labels and places.
ghost use Rattle.std.specs.Prelude.{◌≡◌, option_map};
ghost use Rattle.rv_assembler.specs.Symbols.{with_label};
ghost use Rattle.rv_assembler.specs.Source.{first_line, laid_by, nothing_passed};
ghost use Rattle.asm_forms.specs.Seen.{seen_task_option};
ghost use Rattle.rv_assembler.specs.Stops.{Becomes};

use crate::laying::Laying;
use crate::line_work::LineWork;
use crate::stop::Stop;
use crate::symbols::Symbols;
use asm_forms::{AsmWhy, Task, extent_of, read_line};
use std::alloc::Global;
use std::marker::Model;

/// Where the lines so far lie, and their labels.
#[derive(Drop)]
pub(crate) struct Passing {
    pub(crate) laying: Laying,
    pub(crate) symbols: Symbols,
}

impl Model for Passing {
    ghost use Rattle.rv_assembler.specs.Source.{Passed};

    ghost Value = { Passed };

    ghost view = { λ p. record { laying = p.laying; symbols = p.symbols } };
}

fn define_label(
    alloc: Global,
    symbols: &mut Symbols,
    label: Option<&str>,
    place: u32,
) -> Result<(), Stop>
    ensures { Becomes result symbols.new (with_label (option_map (λ t. t.now) label.entry) place symbols.old) }
{
    match label {
        Some(name) => {
            if symbols.address_of(name).is_some() {
                return Err(Stop::Refused(AsmWhy::DoubleLabel));
            }
            let name = String::from_str(alloc, name)?;
            Ok(symbols.define(name, place)?)
        }
        None => Ok(()),
    }
}

fn lay_task(laying: &mut Laying, task: Option<Task>) -> Result<(), Stop>
    ensures { Becomes result laying.new (laid_by (seen_task_option task.entry) laying.old) }
{
    match task {
        Some(task) => laying.lay(extent_of(task.kind, task.operands.amount)),
        None => Ok(()),
    }
}

impl Passing {
    pub(crate) fn new(alloc: Global) -> Passing
        ensures { result ≡ nothing_passed }
    {
        Passing {
            laying: Laying::new(alloc),
            symbols: Symbols::new(alloc),
        }
    }
}

impl LineWork for Passing {
    type Context = Global;

    ghost step = { λ alloc. first_line };

    // The label of a line, and its place.
    #[tactic(auto, unfolding(crate::specs::Source::first_line))]
    fn do_line(&mut self, context: &Global, line: &[u8]) -> Result<(), Stop> {
        let read = match read_line(line) {
            Ok(read) => read,
            Err(why) => return Err(Stop::Refused(why)),
        };
        define_label(*context, &mut self.symbols, read.label, self.laying.place)?;
        match read.statement {
            Ok(task) => lay_task(&mut self.laying, task),
            Err(why) => Err(Stop::Refused(why)),
        }
    }
}
