// What a byte may begin.
ghost use Rattle.std.specs.Prelude.{◌≡◌};
ghost use Rattle.asm_text.specs.Bytes.{class_of, is_digit, is_letter, begins_name, is_name_byte, is_number_byte};

use crate::token_kind::TokenKind;

// What a byte of a line may begin, outside a comment.
#[derive(Clone, Copy, Debug, PartialEq, Eq, Drop)]
pub enum ByteClass {
    Blank,
    Comment,
    NameStart,
    Digit,
    Minus,
    Mark(TokenKind),
    Other,
}

pub fn is_digit(byte: u8) -> bool
    ensures { result ≡ is_digit byte }
{
    b'0' <= byte && byte <= b'9'
}

fn is_letter(byte: u8) -> bool
    ensures { result ≡ is_letter byte }
{
    (b'A' <= byte && byte <= b'Z') || (b'a' <= byte && byte <= b'z')
}

fn begins_name(byte: u8) -> bool
    ensures { result ≡ begins_name byte }
{
    is_letter(byte) || byte == b'_' || byte == b'.'
}

pub fn is_name_byte(byte: u8) -> bool
    ensures { result ≡ is_name_byte byte }
{
    begins_name(byte) || is_digit(byte)
}

pub fn is_number_byte(byte: u8) -> bool
    ensures { result ≡ is_number_byte byte }
{
    is_letter(byte) || is_digit(byte)
}

#[tactic(auto, using(std::proofs::lemmas::Bool::Decides::nat_tests), unfolding(crate::specs::Bytes::class_of))]
pub fn class_of(byte: u8) -> ByteClass
    ensures { result ≡ class_of byte }
{
    if begins_name(byte) {
        return ByteClass::NameStart;
    }
    if is_digit(byte) {
        return ByteClass::Digit;
    }
    match byte {
        b' ' | b'\t' => ByteClass::Blank,
        b'#' => ByteClass::Comment,
        b'-' => ByteClass::Minus,
        b',' => ByteClass::Mark(TokenKind::Comma),
        b':' => ByteClass::Mark(TokenKind::Colon),
        b'(' => ByteClass::Mark(TokenKind::Open),
        b')' => ByteClass::Mark(TokenKind::Close),
        _ => ByteClass::Other,
    }
}
