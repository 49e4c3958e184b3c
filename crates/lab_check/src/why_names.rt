// The rules of the checker, by name.
ghost use Rattle.std.specs.Prelude.{◌≡◌, ◌≤◌, length};
ghost use Rattle.chain_lint.specs.Texts.{why_name};

use chain_flow::LintWhy;

/// A rule, by name.
pub fn why_name(why: LintWhy) -> &'static str
    ensures text { result.now ≡ why_name why }
    ensures short { length result.now ≤ 15 }
{
    match why {
        LintWhy::TooLong => "TooLong",
        LintWhy::CodeOutside => "CodeOutside",
        LintWhy::NotSpelled => "NotSpelled",
        LintWhy::System => "System",
        LintWhy::Backwards => "Backwards",
        LintWhy::UnknownTarget => "UnknownTarget",
        LintWhy::UnknownAddress => "UnknownAddress",
        LintWhy::StackAccess => "StackAccess",
        LintWhy::RegionAccess => "RegionAccess",
        LintWhy::StackPointer => "StackPointer",
        LintWhy::RegisterChanged => "RegisterChanged",
    }
}
