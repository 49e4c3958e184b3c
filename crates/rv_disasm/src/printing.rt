// How a line of a listing is printed.
ghost use Rattle.std.specs.Prelude.{◌≡◌, ◌+◌, ◌<◌, ◌≤◌, ◌++◌, ◌%◌, ◌^◌, ◌∷◌, [], true, length};
ghost use Rattle.asm_text.specs.Pieces.{printed, text_of};
ghost use Rattle.asm_forms.specs.Seen.{row_of};
ghost use Rattle.rv_disasm.specs.Fitting.{field_fits, items_fit, statement_fits, room_of, room_for};
ghost use Rattle.rv_disasm.specs.Printing.{letter, letters, set_piece, csr_by, field_piece, mark_pieces, item_pieces, items_pieces, operands_pieces, row_pieces, line_pieces};
ghost use Rattle.asm_text.specs.Names.{csr_name};

use crate::shown::{form_for, kind_of, values_of};
use crate::statement::Statement;
use crate::values::Values;
use asm_fields::{Field, Item};
use asm_text::{TokenKind, csr_name, put_decimal, put_hexadecimal, register_name};
use hart_words::{LINE_LEN, Line, field, signed};

fn put_letter(line: &mut Line, text: &str, set: u8, bit: u32)
    requires small { bit < 4 }
    requires room { length line.old + length text.now ≤ LINE_LEN }
    ensures bytes { line.new ≡ line.old ++ letter text.now set bit }
    ensures len { length line.new ≤ length line.old + length text.now }
{
    if field(u32::from(set), bit, 1) == 1 {
        line.put_text(text);
    }
}

fn put_letters(line: &mut Line, set: u8)
    requires { length line.old + 4 ≤ LINE_LEN }
    ensures bytes { line.new ≡ line.old ++ letters set }
    ensures len { length line.new ≤ length line.old + 4 }
{
    put_letter(line, "i", set, 3);
    put_letter(line, "o", set, 2);
    put_letter(line, "r", set, 1);
    put_letter(line, "w", set, 0);
}

fn put_set(line: &mut Line, set: u8)
    requires { length line.old + 21 ≤ LINE_LEN }
    ensures bytes { line.new ≡ line.old ++ text_of (set_piece set) }
    ensures len { length line.new ≤ length line.old + 21 }
{
    if set == 0 {
        put_decimal(line, 0);
    } else {
        put_letters(line, set);
    }
}

fn put_csr(line: &mut Line, csr: u16)
    requires { length line.old + 21 ≤ LINE_LEN }
    ensures bytes { line.new ≡ line.old ++ text_of (csr_by (csr_name csr) csr) }
    ensures len { length line.new ≤ length line.old + 21 }
{
    match csr_name(csr) {
        Some(name) => line.put_text(name),
        None => put_hexadecimal(line, 3, u32::from(csr)),
    }
}

#[tactic(auto, unfolding(crate::specs::Printing::field_piece))]
fn put_field(line: &mut Line, field: Field, values: &Values, place: u32)
    requires fits { field_fits field values.now ≡ true }
    requires room { length line.old + 21 ≤ LINE_LEN }
    ensures bytes { line.new ≡ line.old ++ text_of (field_piece field values.now place) }
    ensures len { length line.new ≤ length line.old + 21 }
{
    let number = values.number;
    match field {
        Field::Rd => line.put_text(register_name(values.rd)),
        Field::Rs1 => line.put_text(register_name(values.rs1)),
        Field::Rs2 => line.put_text(register_name(values.rs2)),
        Field::Csr => put_csr(line, values.csr),
        Field::Source => put_decimal(line, i64::from(values.rs1)),
        Field::Pred => put_set(line, values.rs1),
        Field::Succ => put_set(line, values.rs2),
        Field::Signed(_) => put_decimal(line, signed(number)),
        Field::Below(_) => put_decimal(line, i64::from(number)),
        Field::Digits(_, digits) => put_hexadecimal(line, u32::from(digits), number),
        Field::Upper => put_hexadecimal(line, 5, number / 4096),
        Field::Amount | Field::Word => put_hexadecimal(line, 8, number),
        Field::Label | Field::Address => put_hexadecimal(line, 8, number),
        Field::Target => put_hexadecimal(line, 8, place.wrapping_add(number)),
    }
}

// A mark, with a space behind a comma.
fn mark_text(kind: TokenKind) -> &'static str
    ensures bytes { result.now ≡ printed (mark_pieces kind) }
    ensures short { length result.now ≤ 2 }
{
    match kind {
        TokenKind::Comma => ", ",
        TokenKind::Colon => ":",
        TokenKind::Open => "(",
        TokenKind::Close => ")",
        TokenKind::Name | TokenKind::Number => "",
    }
}

fn put_item(line: &mut Line, item: Item, values: &Values, place: u32)
    requires fits { items_fit (item ∷ []) values.now ≡ true }
    requires room { length line.old + room_of item ≤ LINE_LEN }
    ensures bytes { line.new ≡ line.old ++ printed (item_pieces item values.now place) }
    ensures len { length line.new ≤ length line.old + room_of item }
{
    match item {
        Item::Operand(field) => put_field(line, field, values, place),
        Item::Mark(kind) => line.put_text(mark_text(kind)),
    }
}

fn put_items(line: &mut Line, items: &[Item], values: &Values, place: u32)
    requires fits { items_fit items.now values.now ≡ true }
    requires room { length line.old + room_for items.now ≤ LINE_LEN }
    ensures bytes { line.new ≡ line.old ++ printed (items_pieces items.now values.now place) }
    ensures len { length line.new ≤ length line.old + room_for items.now }
{
    if let [item, rest @ ..] = items {
        put_item(line, *item, values, place);
        put_items(line, rest, values, place);
    }
}

fn put_operands(line: &mut Line, items: &[Item], values: &Values, place: u32)
    requires fits { items_fit items.now values.now ≡ true }
    requires room { length line.old + 1 + room_for items.now ≤ LINE_LEN }
    ensures bytes { line.new ≡ line.old ++ printed (operands_pieces items.now values.now place) }
    ensures len { length line.new ≤ length line.old + 1 + room_for items.now }
{
    if !items.is_empty() {
        line.put_text(" ");
        put_items(line, items, values, place);
    }
}

/// Puts the line of a statement at a place.
#[tactic(auto, unfolding(crate::specs::Printing::row_pieces))]
pub(crate) fn put_statement(line: &mut Line, statement: &Statement, place: u32)
    requires empty { line.old ≡ [] }
    requires fits { statement_fits statement.now ≡ true }
    ensures bytes { line.new ≡ printed (line_pieces place statement.now) }
    ensures len { length line.new ≤ 81 }
{
    let values = values_of(statement);
    let form = form_for(kind_of(statement), values.number);
    line.put_text(form.name);
    put_operands(line, form.items, &values, place);
}
