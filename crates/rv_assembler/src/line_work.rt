// Work on a source, line by line.
ghost use Rattle.std.specs.Prelude.{◌≡◌, ◌≤◌, ◌<◌, ◌^◌, ℕ, List, length};
ghost use Rattle.std.specs.declared.result.Result.{Result};
ghost use Rattle.asm_forms.specs.declared.asm_why.AsmWhy.{AsmWhy};
ghost use Rattle.rv_assembler.specs.Lines.{lines_of, without_return};
ghost use Rattle.rv_assembler.specs.Source.{at_line, pass};
ghost use Rattle.rv_assembler.specs.Stops.{Becomes};
ghost use Rattle.rv_assembler.specs.Answers.{BecomesAt};

use crate::asm_error::AsmError;
use crate::assembling::MAX_SOURCE;
use crate::lines::without_return;
use crate::stop::Stop;
use hart_words::cut_line;

/// What a pass does with each line.
pub(crate) trait LineWork {
    /// What the pass looks at and doesn't change.
    type Context;

    /// What a line makes of what was done so far, or its refusal.
    ghost step: { Self.Context → Self → List ℕ → Result Self AsmWhy };

    /// Does a line. After an error nothing is said of what was done.
    fn do_line(&mut self, context: &Self::Context, line: &[u8]) -> Result<(), Stop>
        ensures { Becomes result self.new (step context.now self.old line.now) };
}

fn do_numbered<W: LineWork>(
    work: &mut W,
    context: &W::Context,
    number: u64,
    line: &[u8],
) -> Result<(), AsmError>
    requires { number < 2 ^ 32 }
    ensures { BecomesAt result work.new (at_line number (W.step context.now work.old (without_return line.now))) }
{
    match work.do_line(context, without_return(line)) {
        Ok(_) => Ok(()),
        Err(Stop::Memory) => Err(AsmError::Memory),
        Err(Stop::Refused(why)) => Err(AsmError::Refused {
            line: number as u32,
            why,
        }),
    }
}

/// Does the lines of a source, of which the first has the number 1.
pub(crate) fn do_lines<W: LineWork>(
    work: &mut W,
    context: &W::Context,
    source: &[u8],
) -> Result<(), AsmError>
    requires { length source.now ≤ MAX_SOURCE }
    ensures { BecomesAt result work.new (pass (W.step context.now) (lines_of source.now) 1 work.old) }
{
    let mut number = 1;
    let mut rest = Some(source);
    while let Some(text) = rest {
        let (line, after) = cut_line(text);
        do_numbered(work, context, number, line)?;
        number += 1;
        rest = after;
    }
    Ok(())
}
