// The lines that tell a verdict and a bound.
ghost use Rattle.std.specs.Prelude.{◌≡◌, ◌≤◌, length};
ghost use Rattle.chain_lint.specs.Texts.{why_name, no_line, yes_line, bound_line, verdict_line, table_line};

use crate::table_bound::TableBound;
use chain_flow::{LintWhy, Verdict};
use hart_words::Line;

fn why_name(why: LintWhy) -> &'static str
    ensures text { result.now ≡ why_name why }
    ensures short { length result.now ≤ 15 }
{
    match why {
        LintWhy::TooLong => "TooLong",
        LintWhy::CodeOutside => "CodeOutside",
        LintWhy::NotSpelled => "NotSpelled",
        LintWhy::System => "System",
        LintWhy::Backwards => "Backwards",
        LintWhy::UnknownTarget => "UnknownTarget",
        LintWhy::UnknownAddress => "UnknownAddress",
        LintWhy::StackAccess => "StackAccess",
        LintWhy::RegionAccess => "RegionAccess",
        LintWhy::StackPointer => "StackPointer",
        LintWhy::RegisterChanged => "RegisterChanged",
    }
}

// What is refused.
#[tactic(auto, unfolding(crate::specs::Texts::no_line))]
fn line_of_no(why: &str, at: u32) -> Line
    requires { length why.now ≤ 15 }
    ensures { result ≡ no_line why.now at }
{
    let mut line = Line::new();
    line.put_text("no ");
    line.put_text(why);
    line.put_text(" ");
    line.put_hex8(at);
    line.put_text("\n");
    line
}

#[tactic(auto, unfolding(crate::specs::Texts::yes_line))]
fn line_of_yes(uses: u32) -> Line
    ensures { result ≡ yes_line uses }
{
    let mut line = Line::new();
    line.put_text("yes ");
    line.put_dec(u64::from(uses));
    line.put_text("\n");
    line
}

#[tactic(auto, unfolding(crate::specs::Texts::bound_line))]
fn line_of_bound(bytes: u32) -> Line
    ensures { result ≡ bound_line bytes }
{
    let mut line = Line::new();
    line.put_text("bound ");
    line.put_dec(u64::from(bytes));
    line.put_text("\n");
    line
}

/// The line that tells a verdict.
pub fn verdict_line(verdict: Verdict) -> Line
    ensures { result ≡ verdict_line verdict }
{
    match verdict {
        Verdict::Yes { uses } => line_of_yes(uses),
        Verdict::No { why, at } => line_of_no(why_name(why), at),
    }
}

/// The line that tells what the handlers in a table come to.
pub fn table_line(answer: TableBound) -> Line
    ensures { result ≡ table_line answer }
{
    match answer {
        TableBound::Bound(bytes) => line_of_bound(bytes),
        TableBound::BadTable(at) => line_of_no("BadTable", at),
        TableBound::Refused { why, at } => line_of_no(why_name(why), at),
    }
}
