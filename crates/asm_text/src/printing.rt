// Numbers as the listing prints them.
ghost use Rattle.std.specs.Prelude.{◌≡◌, ◌+◌, ◌<◌, ◌≤◌, ◌++◌, ◌∷◌, [], length, true};
ghost use Rattle.std.specs.Fmt.{digit_glyph};
ghost use Rattle.asm_text.specs.Pieces.{DecimalPiece, HexPiece, hex_digits, text_of};

use hart_words::{LINE_LEN, Line};

// The hexadecimal digit of a number below 16.
fn digit_text(digit: u32) -> &'static str
    requires { digit < 16 }
    ensures { result.now ≡ digit_glyph true digit ∷ [] }
{
    match digit {
        0 => "0",
        1 => "1",
        2 => "2",
        3 => "3",
        4 => "4",
        5 => "5",
        6 => "6",
        7 => "7",
        8 => "8",
        9 => "9",
        10 => "A",
        11 => "B",
        12 => "C",
        13 => "D",
        14 => "E",
        _ => "F",
    }
}

fn put_digits(line: &mut Line, digits: u32, value: u32)
    requires few { digits ≤ 8 }
    requires room { length line.old + digits ≤ LINE_LEN }
    ensures bytes { line.new ≡ line.old ++ hex_digits digits value }
    ensures len { length line.new ≡ length line.old + digits }
{
    if digits > 0 {
        put_digits(line, digits - 1, value / 16);
        line.put_text(digit_text(value % 16));
    }
}

/// Puts `0x` and the last `digits` hexadecimal digits of the value, in upper case.
#[tactic(auto, unfolding(crate::specs::Pieces::hex))]
pub fn put_hexadecimal(line: &mut Line, digits: u32, value: u32)
    requires few { digits ≤ 8 }
    requires room { length line.old + 2 + digits ≤ LINE_LEN }
    ensures bytes { line.new ≡ line.old ++ text_of (HexPiece digits value) }
    ensures len { length line.new ≡ length line.old + 2 + digits }
{
    line.put_text("0x");
    put_digits(line, digits, value);
}

/// Puts the value in decimal, with a minus where it is below 0.
pub fn put_decimal(line: &mut Line, value: i64)
    requires { length line.old + 21 ≤ LINE_LEN }
    ensures bytes { line.new ≡ line.old ++ text_of (DecimalPiece value) }
    ensures len { length line.new ≤ length line.old + 21 }
{
    if value < 0 {
        line.put_text("-");
    }
    line.put_dec(value.unsigned_abs());
}
