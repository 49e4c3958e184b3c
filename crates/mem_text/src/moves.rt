// What a byte does where reading stands.
ghost use Rattle.std.specs.Prelude.{◌≡◌, ◌<◌, Bool, true, false};
ghost use Rattle.mem_text.specs.Bytes.{IsSmall, digit_of};
ghost use Rattle.mem_text.specs.Moves.{IsShort, IsAllowed, is_number, longer_address, longer_number, behind_digits, between, after_slash, in_line, in_block, after_star, after_at, move_of};
ghost use Rattle.mem_text.specs.declared.token.Token.TheVariants.{Address, Number};
ghost use Rattle.mem_text.specs.declared.moves.Move.TheVariants.{Go};

use crate::byte_kind::ByteKind;
use crate::token::Token;

/// What is done at a byte.
#[derive(Clone, Copy, Debug, PartialEq, Eq, Drop)]
pub(crate) enum Move {
    /// Reading goes on within this.
    Go(Token),
    /// The address or the number ends, and reading goes on within this.
    Close(Token),
    /// A number begins with this digit.
    Begin(u32),
    Bad,
}

/// How many digits an address has at most.
const ADDRESS_DIGITS: u32 = 8;

/// How many digits a number has at most.
const NUMBER_DIGITS: u32 = 2;

#[inline]
fn longer_address(digits: u32, value: u32, digit: u32) -> Move
    requires short { IsShort (Address digits value) }
    requires small { digit < 16 }
    ensures is { result ≡ longer_address digits value digit }
    ensures allowed { IsAllowed false result }
{
    if digits >= ADDRESS_DIGITS {
        return Move::Bad;
    }
    Move::Go(Token::Address {
        digits: digits + 1,
        value: value * 16 + digit,
    })
}

#[inline]
fn longer_number(digits: u32, value: u32, digit: u32) -> Move
    requires short { IsShort (Number digits value) }
    requires small { digit < 16 }
    ensures is { result ≡ longer_number digits value digit }
    ensures allowed { IsAllowed true result }
{
    if digits >= NUMBER_DIGITS {
        return Move::Bad;
    }
    Move::Go(Token::Number {
        digits: digits + 1,
        value: value * 16 + digit,
    })
}

// Behind the digits of an address or a number, where a further digit would do this.
#[inline]
fn behind_digits(token: Token, longer: Move, kind: ByteKind) -> Move
    ensures is { result ≡ behind_digits token longer kind }
    ensures allowed { (number : Bool) → IsAllowed number (Go token) → IsAllowed number longer → IsAllowed number result }
{
    match kind {
        ByteKind::Digit(_) => longer,
        ByteKind::Underscore => Move::Go(token),
        ByteKind::LineFeed | ByteKind::Blank => Move::Close(Token::Between),
        ByteKind::Slash => Move::Close(Token::AfterSlash),
        ByteKind::Star | ByteKind::At | ByteKind::Other => Move::Bad,
    }
}

// The value of a digit, and 0 of all else.
#[inline]
fn digit_of(kind: ByteKind) -> u32
    requires { IsSmall kind }
    ensures digit { result ≡ digit_of kind }
    ensures small { result < 16 }
{
    match kind {
        ByteKind::Digit(digit) => digit,
        _ => 0,
    }
}

#[inline]
fn between(kind: ByteKind) -> Move
    requires { IsSmall kind }
    ensures is { result ≡ between kind }
    ensures allowed { IsAllowed false result }
{
    match kind {
        ByteKind::Digit(digit) => Move::Begin(digit),
        ByteKind::LineFeed | ByteKind::Blank => Move::Go(Token::Between),
        ByteKind::Slash => Move::Go(Token::AfterSlash),
        ByteKind::At => Move::Go(Token::AfterAt),
        ByteKind::Star | ByteKind::Underscore | ByteKind::Other => Move::Bad,
    }
}

#[inline]
fn after_slash(kind: ByteKind) -> Move
    ensures is { result ≡ after_slash kind }
    ensures allowed { IsAllowed false result }
{
    match kind {
        ByteKind::Slash => Move::Go(Token::LineComment),
        ByteKind::Star => Move::Go(Token::BlockComment),
        _ => Move::Bad,
    }
}

#[inline]
fn in_line(kind: ByteKind) -> Move
    ensures is { result ≡ in_line kind }
    ensures allowed { IsAllowed false result }
{
    match kind {
        ByteKind::LineFeed => Move::Go(Token::Between),
        _ => Move::Go(Token::LineComment),
    }
}

#[inline]
fn in_block(kind: ByteKind) -> Move
    ensures is { result ≡ in_block kind }
    ensures allowed { IsAllowed false result }
{
    match kind {
        ByteKind::Star => Move::Go(Token::AfterStar),
        _ => Move::Go(Token::BlockComment),
    }
}

#[inline]
fn after_star(kind: ByteKind) -> Move
    ensures is { result ≡ after_star kind }
    ensures allowed { IsAllowed false result }
{
    match kind {
        ByteKind::Slash => Move::Go(Token::Between),
        ByteKind::Star => Move::Go(Token::AfterStar),
        _ => Move::Go(Token::BlockComment),
    }
}

#[inline]
fn after_at(kind: ByteKind) -> Move
    requires { IsSmall kind }
    ensures is { result ≡ after_at kind }
    ensures allowed { IsAllowed false result }
{
    match kind {
        ByteKind::Digit(digit) => Move::Go(Token::Address {
            digits: 1,
            value: digit,
        }),
        _ => Move::Bad,
    }
}

#[inline]
pub(crate) fn move_of(token: Token, kind: ByteKind) -> Move
    requires short { IsShort token }
    requires small { IsSmall kind }
    ensures is { result ≡ move_of token kind }
    ensures allowed { IsAllowed (is_number token) result }
{
    match token {
        Token::Between => between(kind),
        Token::AfterSlash => after_slash(kind),
        Token::LineComment => in_line(kind),
        Token::BlockComment => in_block(kind),
        Token::AfterStar => after_star(kind),
        Token::AfterAt => after_at(kind),
        Token::Address { digits, value } => {
            let longer = longer_address(digits, value, digit_of(kind));
            behind_digits(token, longer, kind)
        }
        Token::Number { digits, value } => {
            let longer = longer_number(digits, value, digit_of(kind));
            behind_digits(token, longer, kind)
        }
    }
}
