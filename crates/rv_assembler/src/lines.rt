// The lines of a source.
ghost use Rattle.std.specs.Prelude.{◌≡◌};
ghost use Rattle.rv_assembler.specs.Lines.{without_return};

/// The line without a carriage return at its end.
#[tactic(auto, using(std::proofs::lemmas::Bool::Decides::nat_tests), unfolding(crate::specs::Lines::without_return))]
pub(crate) fn without_return(line: &[u8]) -> &[u8]
    ensures { result.now ≡ without_return line.now }
{
    if !line.is_empty() && line[line.len() - 1] == b'\r' {
        &line[..line.len() - 1]
    } else {
        line
    }
}
