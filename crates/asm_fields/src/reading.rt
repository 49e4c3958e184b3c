// Operands as they are read.
ghost use Rattle.std.specs.Prelude.{◌≡◌, ◌<◌, ℕ, List, slice_range, option_map, IfSome};
ghost use Rattle.asm_text.specs.Words.{word_at};
ghost use Rattle.asm_text.specs.Reading.{IsTokenOf};
ghost use Rattle.asm_fields.specs.Fields.{signed_word, unsigned_word, any_word, has_dot, in_word, register_in, csr_in, set_in, label_in, address_in, target_in};
ghost use Rattle.asm_fields.specs.Seen.{seen_number_option};

use crate::number::Number;
use crate::sets::set_of;
use asm_text::{Token, TokenKind, csr_of, register_of};

#[tactic(auto, using(crate::proofs::Integers::integers))]
fn signed_word(half: u32, z: i64) -> Option<u32>
    ensures { result ≡ signed_word half z }
{
    if z >= 0 {
        if z < i64::from(half) {
            Some(z as u32)
        } else {
            None
        }
    } else if z >= -i64::from(half) {
        Some((z + 0x1_0000_0000) as u32)
    } else {
        None
    }
}

#[tactic(auto, using(crate::proofs::Integers::integers))]
fn unsigned_word(limit: u32, z: i64) -> Option<u32>
    ensures value { result ≡ unsigned_word limit z }
    ensures small { IfSome result (λ n. n < limit) }
{
    if z >= 0 {
        if z < i64::from(limit) {
            Some(z as u32)
        } else {
            None
        }
    } else {
        None
    }
}

#[tactic(auto, using(crate::proofs::Integers::integers))]
fn any_word(z: i64) -> Option<u32>
    ensures { result ≡ any_word z }
{
    if z >= 0 {
        if z < 0x1_0000_0000 {
            Some(z as u32)
        } else {
            None
        }
    } else if z >= -0x8000_0000 {
        Some((z + 0x1_0000_0000) as u32)
    } else {
        None
    }
}

pub(crate) fn has_dot(name: &str) -> bool
    ensures { result ≡ has_dot name.now }
{
    for b in name.as_bytes() {
        if *b == b'.' {
            return true;
        }
    }
    false
}

/// The text of a name.
pub(crate) fn name_text<'a>(line: &'a [u8], token: Token) -> &'a str
    requires token { IsTokenOf line.now token }
    requires name { token.kind ≡ TokenKind.Name }
    ensures { result.now ≡ slice_range line.now token.start token.end }
{
    match std::str::from_utf8(&line[token.start..token.end]) {
        Ok(text) => text,
        Err(_) => "",
    }
}

pub(crate) fn register_in(line: &[u8], token: Token) -> Option<u8>
    requires { IsTokenOf line.now token }
    ensures { result ≡ register_in (word_at line.now token) }
{
    match token.kind {
        TokenKind::Name => register_of(&line[token.start..token.end]),
        _ => None,
    }
}

pub(crate) fn csr_in(line: &[u8], token: Token) -> Option<u16>
    requires { IsTokenOf line.now token }
    ensures { result ≡ csr_in (word_at line.now token) }
{
    match token.kind {
        TokenKind::Name => csr_of(&line[token.start..token.end]),
        TokenKind::Number => match unsigned_word(4096, token.value) {
            Some(n) => Some(n as u16),
            None => None,
        },
        _ => None,
    }
}

pub(crate) fn set_in(line: &[u8], token: Token) -> Option<u8>
    requires { IsTokenOf line.now token }
    ensures { result ≡ set_in (word_at line.now token) }
{
    match token.kind {
        TokenKind::Name => set_of(&line[token.start..token.end]),
        TokenKind::Number => match unsigned_word(1, token.value) {
            Some(_) => Some(0),
            None => None,
        },
        _ => None,
    }
}

/// A number below 32, whatever line the token is of.
pub(crate) fn source_in(token: Token) -> Option<u8>
    ensures { (line : List ℕ) → result ≡ in_word (unsigned_word 32) (word_at line token) }
{
    match token.kind {
        TokenKind::Number => match unsigned_word(32, token.value) {
            Some(n) => Some(n as u8),
            None => None,
        },
        _ => None,
    }
}

pub(crate) fn signed_in(half: u32, token: Token) -> Option<u32>
    ensures { (line : List ℕ) → result ≡ in_word (signed_word half) (word_at line token) }
{
    match token.kind {
        TokenKind::Number => signed_word(half, token.value),
        _ => None,
    }
}

pub(crate) fn below_in(limit: u32, token: Token) -> Option<u32>
    ensures value { (line : List ℕ) → result ≡ in_word (unsigned_word limit) (word_at line token) }
    ensures small { IfSome result (λ n. n < limit) }
{
    match token.kind {
        TokenKind::Number => unsigned_word(limit, token.value),
        _ => None,
    }
}

pub(crate) fn word_in(token: Token) -> Option<u32>
    ensures { (line : List ℕ) → result ≡ in_word any_word (word_at line token) }
{
    match token.kind {
        TokenKind::Number => any_word(token.value),
        _ => None,
    }
}

/// The name of a label, which has no dot.
pub fn label_in<'a>(line: &'a [u8], token: Token) -> Option<&'a str>
    requires { IsTokenOf line.now token }
    ensures { option_map (λ t. t.now) result ≡ label_in (word_at line.now token) }
{
    match token.kind {
        TokenKind::Name => {
            let name = name_text(line, token);
            if has_dot(name) { None } else { Some(name) }
        }
        _ => None,
    }
}

pub(crate) fn address_in<'a>(line: &'a [u8], token: Token) -> Option<Number<'a>>
    requires { IsTokenOf line.now token }
    ensures { seen_number_option result ≡ address_in (word_at line.now token) }
{
    match token.kind {
        TokenKind::Name => match label_in(line, token) {
            Some(name) => Some(Number::Absolute(name)),
            None => None,
        },
        TokenKind::Number => match any_word(token.value) {
            Some(n) => Some(Number::Given(n)),
            None => None,
        },
        _ => None,
    }
}

pub(crate) fn target_in<'a>(line: &'a [u8], token: Token) -> Option<Number<'a>>
    requires { IsTokenOf line.now token }
    ensures { seen_number_option result ≡ target_in (word_at line.now token) }
{
    match token.kind {
        TokenKind::Name => match label_in(line, token) {
            Some(name) => Some(Number::NearLabel(name)),
            None => None,
        },
        TokenKind::Number => match any_word(token.value) {
            Some(n) => Some(Number::Near(n)),
            None => None,
        },
        _ => None,
    }
}
