// The shape that a scenario says.
ghost use Rattle.std.specs.Prelude.{◌≡◌, ◌+◌, ◌<◌, ◌≤◌, ◌^◌, ℕ, [], length, option_map};
ghost use Rattle.hart_words.specs.Cuts.{cut};
ghost use Rattle.hart_words.specs.Lines.{lines_left, left};
ghost use Rattle.board_inputs.specs.Opening.{shape_named, shape_after, shape_in};
ghost use Rattle.board_inputs.specs.ScenarioFile.{file_opening};
ghost use Rattle.board_inputs.specs.ScenarioReading.{with_lines};

use crate::lines::is_passed;
use crate::numbers::number;
use clic_regs::Shape;
use hart_words::{cut_at, cut_line};

// The shape, by its name and its two numbers.
#[tactic(auto, unfolding(crate::specs::Opening::shape_named))]
fn shape_named(name: &[u8], first: &[u8], second: &[u8]) -> Option<Shape>
    ensures { result ≡ shape_named name.now first.now second.now }
{
    if name != b"clic".as_slice() {
        return None;
    }
    match (number(first, 1024), number(second, 8)) {
        (Some(inputs), Some(bits)) => Shape::of(inputs, bits),
        _ => None,
    }
}

// What follows the name.
fn shape_after(name: &[u8], numbers: &[u8]) -> Option<Shape>
    ensures { result ≡ shape_after name.now (cut 32 numbers.now) }
{
    match cut_at(numbers, b' ') {
        (_, None) => None,
        (first, Some(second)) => shape_named(name, first, second),
    }
}

// The shape that a line says.
#[tactic(auto, unfolding(crate::specs::Opening::shape_in))]
fn shape_in(line: &[u8]) -> Option<Shape>
    ensures { result ≡ shape_in line.now }
{
    match cut_at(line, b' ') {
        (_, None) => None,
        (name, Some(numbers)) => shape_after(name, numbers),
    }
}

// The shape of a file, the number of the first line that may tell an event, and the text from there on.
pub(crate) fn opening(bytes: &[u8]) -> (Shape, u64, Option<&[u8]>)
    requires { length bytes.now < 2 ^ 32 }
    ensures shape { result.0 ≡ (file_opening bytes.now).shape }
    ensures lines { (n : ℕ) → with_lines n (lines_left (option_map (λ s. s.now) result.2)) result.1 [] ≡ with_lines n (file_opening bytes.now).lines 1 [] }
    ensures few { result.1 + left (option_map (λ s. s.now) result.2) ≤ length bytes.now + 2 }
{
    let mut number = 1;
    let mut rest = Some(bytes);
    while let Some(text) = rest {
        let (line, after) = cut_line(text);
        if !is_passed(line) {
            return match shape_in(line) {
                Some(shape) => (shape, number + 1, after),
                None => (Shape::plain(), number, Some(text)),
            };
        }
        number += 1;
        rest = after;
    }
    (Shape::plain(), number, None)
}
