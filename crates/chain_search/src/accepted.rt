// The handlers that have a certificate so far.
ghost use Rattle.std.specs.Prelude.{◌≡◌};
ghost use Rattle.chain_search.specs.Tables.{uses_in};

/// A handler that has a certificate: its address, and the bytes that it uses below its frame.
#[derive(Clone, Copy, Drop)]
pub struct Accepted {
    pub at: u32,
    pub uses: u32,
}

/// What the handler at an address uses, where it has one.
#[tactic(auto, unfolding(crate::specs::Tables::uses_in))]
pub fn uses_of(accepted: &[Accepted], at: u32) -> Option<u32>
    ensures { result ≡ uses_in accepted.now at }
{
    for handler in accepted {
        if handler.at == at {
            return Some(handler.uses);
        }
    }
    None
}
