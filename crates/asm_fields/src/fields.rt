// A line's operands, one by one.
ghost use Rattle.std.specs.Prelude.{◌≡◌, ◌+◌, ◌^◌, ◌≤◌, ℕ, List, length, map, drop, All};
ghost use Rattle.asm_text.specs.Words.{word_at};
ghost use Rattle.asm_text.specs.Reading.{IsTokenOf};
ghost use Rattle.asm_fields.specs.Fields.{read_field, read_item, read_items, is_same_mark, is_marked, as_given, as_upper, as_absolute, in_word, unsigned_word, label_in};
ghost use Rattle.asm_fields.specs.Seen.{seen, seen_option, seen_number_option};

use crate::field::Field;
use crate::item::Item;
use crate::number::Number;
use crate::operands::Operands;
use crate::reading::{
    address_in, below_in, csr_in, label_in, register_in, set_in, signed_in, source_in, target_in,
    word_in,
};
use asm_text::{Token, TokenKind, Tokens};

// A number as it stands.
fn given<'a>(value: Option<u32>) -> Option<Number<'a>>
    ensures { seen_number_option result ≡ as_given value }
{
    match value {
        Some(n) => Some(Number::Given(n)),
        None => None,
    }
}

// A number in the upper 20 bits.
fn upper_in<'a>(token: Token) -> Option<Number<'a>>
    ensures { (line : List ℕ) → seen_number_option result ≡ as_upper (in_word (unsigned_word (2 ^ 20)) (word_at line token)) }
{
    match below_in(0x10_0000, token) {
        Some(n) => Some(Number::Given(n * 0x1000)),
        None => None,
    }
}

// A label's address.
fn absolute_in<'a>(line: &'a [u8], token: Token) -> Option<Number<'a>>
    requires { IsTokenOf line.now token }
    ensures { seen_number_option result ≡ as_absolute (label_in (word_at line.entry.now token)) }
{
    match label_in(line, token) {
        Some(name) => Some(Number::Absolute(name)),
        None => None,
    }
}

// The operands with a value in its field, where there is one.
macro_rules! with {
    ($field:ident, $value:expr, $operands:expr) => {
        match $value {
            Some($field) => Some(Operands {
                $field,
                ..$operands
            }),
            None => None,
        }
    };
}

#[tactic(auto, unfolding(crate::specs::Fields::read_field))]
fn read_field<'a>(
    field: Field,
    line: &'a [u8],
    token: Token,
    operands: Operands<'a>,
) -> Option<Operands<'a>>
    requires { IsTokenOf line.now token }
    ensures { seen_option result ≡ read_field field (word_at line.entry.now token) (seen operands.entry) }
{
    match field {
        Field::Rd => with!(rd, register_in(line, token), operands),
        Field::Rs1 => with!(rs1, register_in(line, token), operands),
        Field::Rs2 => with!(rs2, register_in(line, token), operands),
        Field::Csr => with!(csr, csr_in(line, token), operands),
        Field::Source => with!(rs1, source_in(token), operands),
        Field::Pred => with!(rs1, set_in(line, token), operands),
        Field::Succ => with!(rs2, set_in(line, token), operands),
        Field::Signed(half) => with!(number, given(signed_in(half, token)), operands),
        Field::Below(limit) => with!(number, given(below_in(limit, token)), operands),
        Field::Digits(limit, _) => with!(number, given(below_in(limit, token)), operands),
        Field::Upper => with!(number, upper_in(token), operands),
        Field::Amount => with!(amount, word_in(token), operands),
        Field::Word => with!(number, given(word_in(token)), operands),
        Field::Label => with!(number, absolute_in(line, token), operands),
        Field::Address => with!(number, address_in(line, token), operands),
        Field::Target => with!(number, target_in(line, token), operands),
    }
}

fn is_same_mark(kind: TokenKind, other: TokenKind) -> bool
    ensures { result ≡ is_same_mark kind other }
{
    match (kind, other) {
        (TokenKind::Comma, TokenKind::Comma) => true,
        (TokenKind::Colon, TokenKind::Colon) => true,
        (TokenKind::Open, TokenKind::Open) => true,
        (TokenKind::Close, TokenKind::Close) => true,
        _ => false,
    }
}

/// Whether the token is this mark.
pub fn is_marked(kind: TokenKind, token: Token) -> bool
    ensures { (line : List ℕ) → result ≡ is_marked kind (word_at line token) }
{
    match token.kind {
        TokenKind::Name | TokenKind::Number => false,
        _ => is_same_mark(kind, token.kind),
    }
}

fn read_item<'a>(
    item: Item,
    line: &'a [u8],
    token: Token,
    operands: Operands<'a>,
) -> Option<Operands<'a>>
    requires { IsTokenOf line.now token }
    ensures { seen_option result ≡ read_item item (word_at line.entry.now token) (seen operands.entry) }
{
    match item {
        Item::Operand(field) => read_field(field, line, token, operands),
        Item::Mark(kind) => {
            if is_marked(kind, token) {
                Some(operands)
            } else {
                None
            }
        }
    }
}

/// The operands that the tokens from this one on are, one token for each item, beside those read already.
pub fn read_items<'a>(
    items: &[Item],
    line: &'a [u8],
    tokens: &Tokens,
    at: usize,
    operands: Operands<'a>,
) -> Option<Operands<'a>>
    requires tokens { All (IsTokenOf line.now) tokens.now }
    requires inside { at ≤ length tokens.now }
    ensures { seen_option result ≡ read_items items.now (map (word_at line.entry.now) (drop at tokens.now)) (seen operands.entry) }
{
    if items.is_empty() {
        return if at == tokens.len() {
            Some(operands)
        } else {
            None
        };
    }
    if at == tokens.len() {
        return None;
    }
    match read_item(items[0], line, tokens.get(at), operands) {
        Some(more) => read_items(&items[1..], line, tokens, at + 1, more),
        None => None,
    }
}
