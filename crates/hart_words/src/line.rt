// A buffer for one line of text.
ghost use Rattle.std.specs.Prelude.{◌≡◌, ◌+◌, ◌≤◌, ◌++◌, ◌∷◌, [], true, length};
ghost use Rattle.std.specs.Fmt.{digit_glyph};
ghost use Rattle.hart_words.specs.Decimal.{decimal};
ghost use Rattle.hart_words.specs.Hexadecimal.{hex2, hex4, hex8};

use arrayvec::ArrayVec;
use itoa::Buffer;
use std::marker::Model;

/// How many bytes a line holds.
pub const LINE_LEN: usize = 128;

/// The hexadecimal digits.
const DIGITS: [u8; 16] = *b"0123456789ABCDEF";

/// A line of at most 128 bytes, seen as a list. It takes no memory.
#[derive(Drop)]
pub struct Line {
    buffer: ArrayVec<u8, LINE_LEN>,
}

impl Model for Line {
    ghost use Rattle.std.specs.Prelude.{ℕ, List};

    ghost Value = { List ℕ };

    ghost view = { λ l. l.buffer.items };
}

impl Line {
    /// An empty line.
    pub fn new() -> Line
        ensures { result ≡ [] }
    {
        Line {
            buffer: ArrayVec::new(),
        }
    }

    pub fn clear(&mut self)
        ensures { self.new ≡ [] }
    {
        self.buffer.clear();
    }

    pub fn bytes(&self) -> &[u8]
        ensures bytes { result.now ≡ self.now }
        ensures fits { length self.now ≤ LINE_LEN }
    {
        self.buffer.as_slice()
    }

    /// How many bytes there is room for.
    pub fn spare(&self) -> usize
        ensures { result + length self.now ≡ LINE_LEN }
    {
        self.buffer.remaining_capacity()
    }

    pub fn put_text(&mut self, text: &str)
        requires { length self.old + length text.now ≤ LINE_LEN }
        ensures bytes { self.new ≡ self.old ++ text.now }
        ensures len { length self.new ≡ length self.old + length text.now }
    {
        self.put_bytes(text.as_bytes());
    }

    fn put_bytes(&mut self, bytes: &[u8])
        requires { length self.old + length bytes.now ≤ LINE_LEN }
        ensures { self.new ≡ self.old ++ bytes.now }
    {
        let _ = self.buffer.try_extend_from_slice(bytes);
    }

    /// Two digits of a byte.
    #[tactic(auto, unfolding(crate::specs::Hexadecimal::hex2))]
    pub fn put_hex2(&mut self, v: u8)
        requires { length self.old + 2 ≤ LINE_LEN }
        ensures bytes { self.new ≡ self.old ++ hex2 v }
        ensures len { length self.new ≡ length self.old + 2 }
    {
        self.put_bytes(&[digit(v / 16), digit(v % 16)]);
    }

    /// Four digits of a half-word.
    #[tactic(auto, unfolding(crate::specs::Hexadecimal::hex2, crate::specs::Hexadecimal::hex4))]
    pub fn put_hex4(&mut self, v: u16)
        requires { length self.old + 4 ≤ LINE_LEN }
        ensures bytes { self.new ≡ self.old ++ hex4 v }
        ensures len { length self.new ≡ length self.old + 4 }
    {
        let high = (v / 0x100) as u8;
        let low = (v % 0x100) as u8;
        self.put_bytes(&[
            digit(high / 16),
            digit(high % 16),
            digit(low / 16),
            digit(low % 16),
        ]);
    }

    /// Eight digits of a word.
    #[tactic(auto, unfolding(crate::specs::Hexadecimal::hex2, crate::specs::Hexadecimal::hex4, crate::specs::Hexadecimal::hex8))]
    pub fn put_hex8(&mut self, v: u32)
        requires { length self.old + 8 ≤ LINE_LEN }
        ensures bytes { self.new ≡ self.old ++ hex8 v }
        ensures len { length self.new ≡ length self.old + 8 }
    {
        let first = (v / 0x1_0000 / 0x100) as u8;
        let second = (v / 0x1_0000 % 0x100) as u8;
        let third = (v % 0x1_0000 / 0x100) as u8;
        let fourth = (v % 0x1_0000 % 0x100) as u8;
        self.put_bytes(&[
            digit(first / 16),
            digit(first % 16),
            digit(second / 16),
            digit(second % 16),
            digit(third / 16),
            digit(third % 16),
            digit(fourth / 16),
            digit(fourth % 16),
        ]);
    }

    /// The number in decimal, without leading zeros: 1 to 20 digits.
    pub fn put_dec(&mut self, v: u64)
        requires { length self.old + 20 ≤ LINE_LEN }
        ensures bytes { self.new ≡ self.old ++ decimal v }
        ensures len { length self.new ≤ length self.old + 20 }
    {
        let mut digits = Buffer::new();
        self.put_bytes(digits.format(v).as_bytes());
    }
}

// The hexadecimal digit of a number below 16.
#[inline]
fn digit(v: u8) -> u8
    requires { v ≤ 15 }
    ensures { result ≡ digit_glyph true v }
{
    DIGITS[usize::from(v)]
}
