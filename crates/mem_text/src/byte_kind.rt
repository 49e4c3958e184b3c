// What a byte of a text is.
ghost use Rattle.std.specs.Prelude.{◌≡◌};
ghost use Rattle.mem_text.specs.Bytes.{kind_of, IsSmall};

/// What a byte is, outside a comment.
#[derive(Clone, Copy, Debug, PartialEq, Eq, Drop)]
pub(crate) enum ByteKind {
    /// A hexadecimal digit, and its value.
    Digit(u32),
    LineFeed,
    /// White space that is no line feed.
    Blank,
    Slash,
    Star,
    At,
    Underscore,
    Other,
}

#[inline]
#[tactic(auto, using(std::proofs::lemmas::Bool::Decides::nat_tests), unfolding(crate::specs::Bytes::kind_of, crate::specs::Bytes::is_hex, crate::specs::Bytes::hex_value))]
pub(crate) fn kind_of(byte: u8) -> ByteKind
    ensures kind { result ≡ kind_of byte }
    ensures small { IsSmall result }
{
    match byte {
        b'0'..=b'9' => ByteKind::Digit(u32::from(byte - b'0')),
        b'A'..=b'F' => ByteKind::Digit(u32::from(byte - b'A') + 10),
        b'a'..=b'f' => ByteKind::Digit(u32::from(byte - b'a') + 10),
        b'\n' => ByteKind::LineFeed,
        b' ' | b'\t' | b'\r' | 12 => ByteKind::Blank,
        b'/' => ByteKind::Slash,
        b'*' => ByteKind::Star,
        b'@' => ByteKind::At,
        b'_' => ByteKind::Underscore,
        _ => ByteKind::Other,
    }
}
