// Reading on from where it stands.
ghost use Rattle.std.specs.Prelude.{◌≡◌, ◌+◌, ◌<◌, ◌^◌, length, false, Ok, Err, IfOk, OnOk};
ghost use Rattle.hart_memory.specs.Image.{AreSound};
ghost use Rattle.mem_text.specs.Moves.{IsAllowed};
ghost use Rattle.mem_text.specs.Laying.{why_not};
ghost use Rattle.mem_text.specs.Reading.{fresh, closed, begun, made, step, reads, ended};
ghost use Rattle.mem_text.specs.Standing.{Gives, Becomes};
ghost use Rattle.mem_text.specs.declared.mem_error.MemError.TheVariants.{Refused};
ghost use Rattle.mem_text.specs.declared.moves.Move.TheVariants.{Close};

use crate::byte_kind::kind_of;
use crate::laying::Laying;
use crate::mem_error::MemError;
use crate::mem_why::MemWhy;
use crate::moves::{Move, move_of};
use crate::token::Token;
use hart_memory::Image;
use hart_words::WantOfMemory;
use std::alloc::Global;
use std::marker::Model;

// What was laid down, and what the bytes so far are within.
#[derive(Drop)]
pub(crate) struct Reading {
    laying: Laying,
    token: Token,
}

impl Model for Reading {
    ghost use Rattle.mem_text.specs.Reading.{State};
    ghost use Rattle.mem_text.specs.Standing.{IsKept};

    ghost Value = { State };

    ghost view = { λ r. record { laying = r.laying; token = r.token } };

    ghost invariant = { λ r. IsKept (record { laying = r.laying; token = r.token }) };
}

// Refuses what stands at a place.
fn refused<T>(place: u32, why: MemWhy) -> Result<T, MemError>
    ensures { result ≡ Err (Refused place why) }
{
    Err(MemError::Refused { place, why })
}

impl Reading {
    pub(crate) fn new(alloc: Global, entry: u32) -> Reading
        ensures { result ≡ fresh entry }
    {
        Reading {
            laying: Laying::new(alloc, entry),
            token: Token::Between,
        }
    }

    // The address or the number ends.
    fn close(&mut self, next: Token) -> Result<(), WantOfMemory>
        requires { IsAllowed false (Close next) }
        ensures { OnOk result (self.new ≡ record { laying = closed self.old.token self.old.laying; token = next }) }
    {
        let token = self.token;
        self.token = next;
        match token {
            Token::Address { value, .. } => self.laying.move_to(value),
            Token::Number { value, .. } => self.laying.push(value as u8),
            Token::Between | Token::AfterSlash | Token::AfterAt => Ok(()),
            Token::LineComment | Token::BlockComment | Token::AfterStar => Ok(()),
        }
    }

    // A number begins.
    fn begin(&mut self, place: u32, digit: u32) -> Result<(), MemError>
        requires { digit < 16 }
        ensures { Becomes result self.new (begun (why_not self.old.laying) place digit self.old.laying) }
    {
        match self.laying.why_not() {
            Some(why) => refused(place, why),
            None => {
                self.token = Token::Number {
                    digits: 1,
                    value: digit,
                };
                Ok(())
            }
        }
    }

    // The byte at a place.
    #[tactic(auto, unfolding(crate::specs::Reading::step))]
    fn take(&mut self, place: u32, byte: u8) -> Result<(), MemError>
        ensures { Becomes result self.new (step place self.old byte) }
    {
        match move_of(self.token, kind_of(byte)) {
            Move::Go(token) => {
                self.token = token;
                Ok(())
            }
            Move::Close(token) => Ok(self.close(token)?),
            Move::Begin(digit) => self.begin(place, digit),
            Move::Bad => refused(place, MemWhy::BadByte),
        }
    }

    /// Reads bytes, the first of them at a place.
    pub(crate) fn take_all(&mut self, place: u32, piece: &[u8]) -> Result<(), MemError>
        requires { place + length piece.now < 2 ^ 32 }
        ensures { Becomes result self.new (reads place self.old piece.now) }
    {
        for (i, byte) in piece.iter().enumerate() {
            self.take(place + i as u32, *byte)?;
        }
        Ok(())
    }

    /// The text ends at a place.
    #[tactic(auto, unfolding(crate::specs::Reading::ended))]
    pub(crate) fn into_image(self, place: u32) -> Result<Image, MemError>
        ensures image { Gives (λ i. i) result (ended place self) }
        ensures sound { IfOk result (λ i. AreSound i.segments) }
    {
        let mut laying = self.laying;
        match self.token {
            Token::Between | Token::LineComment => {}
            Token::Address { value, .. } => laying.move_to(value)?,
            Token::Number { value, .. } => laying.push(value as u8)?,
            Token::AfterSlash | Token::BlockComment | Token::AfterStar | Token::AfterAt => {
                return refused(place, MemWhy::Truncated);
            }
        }
        Ok(laying.into_image()?)
    }
}
