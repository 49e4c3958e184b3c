// What the verdict on a handler says.
ghost use Rattle.std.specs.Prelude.{◌≡◌, ℕ, List};
ghost use Rattle.chain_flow.specs.Walk.{verdict};
ghost use Rattle.chain_flow.specs.Survey.{IsVerdict};
ghost use Rattle.chain_flow.specs.declared.region.Region.{Region};
ghost use Rattle.chain_flow.specs.declared.verdict.Verdict.{Verdict};

/// The verdict in words: addresses are visited from the handler on, each the least that is reached and
/// not yet visited; what is known at one is the join over the visits that go there. It is yes where all
/// that is reached is visited, and else no by the first rule at the next address.
pub fn a_verdict_is_so()
    ensures is { (code : List ℕ) (region : Region) (handler : ℕ) → IsVerdict code region handler (verdict code handler region) }
    ensures only { (code : List ℕ) (region : Region) (handler : ℕ) (answer : Verdict) → IsVerdict code region handler answer → verdict code handler region ≡ answer }
{}
