// The tokens of a line.
ghost use Rattle.std.specs.Prelude.{◌≡◌, ◌+◌, ◌<◌, ◌≤◌, length, drop, slice_index, map, pos, All};
ghost use Rattle.std.specs.List.{prefix_len};
ghost use Rattle.asm_text.specs.Bytes.{is_digit, is_name_byte, is_number_byte};
ghost use Rattle.asm_text.specs.Words.{word_at};
ghost use Rattle.asm_text.specs.Lexing.{lexed, tokens_of, words_of, front_of, number_front};
ghost use Rattle.asm_text.specs.Fronts.{seen, answer_of};
ghost use Rattle.asm_text.specs.Reading.{IsRead, IsSmall, IsTokenOf};

use crate::byte_class::{ByteClass, class_of, is_digit, is_name_byte, is_number_byte};
use crate::found::Found;
use crate::lex_fault::LexFault;
use crate::number::number_of;
use crate::token::Token;
use crate::token_kind::TokenKind;
use crate::tokens::{MAX_TOKENS, Tokens};

// The end of the name that goes on at this place.
fn name_end(line: &[u8], from: usize) -> usize
    requires { from ≤ length line.now }
    ensures is { result ≡ from + prefix_len is_name_byte (drop from line.now) }
    ensures inside { result ≤ length line.now }
{
    let mut end = from;
    while end < line.len() && is_name_byte(line[end]) {
        end += 1;
    }
    end
}

// The end of the number that goes on at this place.
fn number_end(line: &[u8], from: usize) -> usize
    requires { from ≤ length line.now }
    ensures is { result ≡ from + prefix_len is_number_byte (drop from line.now) }
    ensures inside { result ≤ length line.now }
{
    let mut end = from;
    while end < line.len() && is_number_byte(line[end]) {
        end += 1;
    }
    end
}

fn number_at(line: &[u8], at: usize) -> Found
    requires { at < length line.now }
    ensures { result ≡ seen at (number_front (slice_index line.now at) (drop (at + 1) line.now)) }
{
    let end = number_end(line, at + 1);
    match number_of(&line[at..end]) {
        Some(value) => Found::Token(Token {
            kind: TokenKind::Number,
            start: at,
            end,
            value,
        }),
        None => Found::Fault(LexFault::BadNumber(at)),
    }
}

fn has_digit(line: &[u8], at: usize) -> bool
    ensures { result ≡ is_digit (slice_index line.now at) }
{
    at < line.len() && is_digit(line[at])
}

fn without_value(kind: TokenKind, start: usize, end: usize) -> Found
    ensures { result ≡ Found.Token (record { kind = kind; start = start; end = end; value = pos 0 }) }
{
    Found::Token(Token {
        kind,
        start,
        end,
        value: 0,
    })
}

#[tactic(auto, unfolding(crate::specs::Lexing::front_of))]
fn front_at(line: &[u8], at: usize) -> Found
    requires { at < length line.now }
    ensures { result ≡ seen at (front_of (slice_index line.now at) (drop (at + 1) line.now)) }
{
    match class_of(line[at]) {
        ByteClass::Blank => Found::Space,
        ByteClass::Comment => Found::Comment,
        ByteClass::NameStart => without_value(TokenKind::Name, at, name_end(line, at + 1)),
        ByteClass::Digit => number_at(line, at),
        ByteClass::Minus => {
            if has_digit(line, at + 1) {
                number_at(line, at)
            } else {
                Found::Fault(LexFault::BadChar(at))
            }
        }
        ByteClass::Mark(kind) => without_value(kind, at, at + 1),
        ByteClass::Other => Found::Fault(LexFault::BadChar(at)),
    }
}

fn lex_tokens(line: &[u8], tokens: &mut Tokens) -> Result<(), LexFault>
    ensures tokens { tokens.new ≡ tokens_of (lexed line.now).lexemes }
    ensures answer { result ≡ answer_of (lexed line.now).fault }
{
    tokens.clear();
    let mut at = 0;
    while at < line.len() {
        match front_at(line, at) {
            Found::Space => at += 1,
            Found::Comment => return Ok(()),
            Found::Token(token) => {
                if tokens.len() == MAX_TOKENS {
                    return Err(LexFault::TooManyTokens(at));
                }
                tokens.push(token);
                at = token.end;
            }
            Found::Fault(fault) => return Err(fault),
        }
    }
    Ok(())
}

/// Reads the tokens of a line. What the list held is dropped first; after a refusal it holds the
/// tokens before the fault.
#[tactic(auto, using(crate::proofs::Texts::words_told))]
pub fn lex_line(line: &[u8], tokens: &mut Tokens) -> Result<(), LexFault>
    ensures tokens { tokens.new ≡ tokens_of (lexed line.now).lexemes }
    ensures words { map (word_at line.now) tokens.new ≡ words_of (lexed line.now).lexemes }
    ensures answer { result ≡ answer_of (lexed line.now).fault }
    ensures slices { All (IsTokenOf line.now) tokens.new }
    ensures small { All (λ t. IsSmall t.value) tokens.new }
    ensures read { IsRead line.now tokens.new result }
{
    lex_tokens(line, tokens)
}
