// The lines of a text.
ghost use Rattle.std.specs.Prelude.{◌≡◌, ◌≤◌, ◌∷◌, length, option_map};
ghost use Rattle.hart_words.specs.Cuts.{cut};
ghost use Rattle.hart_words.specs.Lines.{lines_of, lines_left, left};

use crate::cuts::cut_at;

/// The first line of a text, and what follows it. Nothing follows the last line, and an empty text follows a line feed
/// at the end.
pub fn cut_line(text: &[u8]) -> (&[u8], Option<&[u8]>)
    ensures lines { lines_of text.now ≡ result.0.now ∷ lines_left (option_map (λ s. s.now) result.1) }
    ensures fits { length result.0.now ≤ length text.now }
    ensures less { left (option_map (λ s. s.now) result.1) ≤ length text.now }
    ensures cut { (result.0.now, option_map (λ s. s.now) result.1) ≡ cut 10 text.now }
{
    cut_at(text, b'\n')
}
