// A list of tokens.
ghost use Rattle.std.specs.Prelude.{◌≡◌, ◌<◌, ◌≤◌, ◌++◌, ◌∷◌, [], Some, length, slice_get};

use crate::token::Token;
use arrayvec::ArrayVec;
use std::marker::Model;

/// How many tokens a line may have.
pub const MAX_TOKENS: usize = 16;

/// The tokens of a line, at most 16, seen as a list. It takes no memory.
#[derive(Drop)]
pub struct Tokens {
    list: ArrayVec<Token, MAX_TOKENS>,
}

impl Model for Tokens {
    ghost use Rattle.std.specs.Prelude.{List};
    ghost use Rattle.asm_text.specs.declared.token.Token.{Token};

    ghost Value = { List Token };

    ghost view = { λ t. t.list.items };
}

impl Tokens {
    /// No tokens.
    pub fn new() -> Tokens
        ensures { result ≡ [] }
    {
        Tokens {
            list: ArrayVec::new(),
        }
    }

    pub fn len(&self) -> usize
        ensures len { result ≡ length self.now }
        ensures fits { result ≤ MAX_TOKENS }
    {
        self.list.len()
    }

    /// The token at a place, from 0 on.
    pub fn get(&self, i: usize) -> Token
        requires { i < length self.now }
        ensures { slice_get self.now i ≡ Some result }
    {
        self.list.as_slice()[i]
    }

    pub(crate) fn clear(&mut self)
        ensures { self.new ≡ [] }
    {
        self.list.clear();
    }

    pub(crate) fn push(&mut self, token: Token)
        requires { length self.old < MAX_TOKENS }
        ensures { self.new ≡ self.old ++ token ∷ [] }
    {
        self.list.push(token);
    }
}
