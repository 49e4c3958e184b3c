// What a line says.
ghost use Rattle.std.specs.Prelude.{◌≡◌, ◌≤◌, length, map, drop, option_map, All, IfSome, codes};
ghost use Rattle.asm_text.specs.Words.{word_at};
ghost use Rattle.asm_text.specs.Reading.{IsTokenOf};
ghost use Rattle.asm_forms.specs.Statements.{chosen, read_form, task_named, statement_of, label_of, reading};
ghost use Rattle.asm_forms.specs.Seen.{row_of, form_rows, seen_task_option, seen_chosen, seen_statement, seen_reading};

use crate::asm_why::AsmWhy;
use crate::form::Form;
use crate::forms::FORMS;
use crate::making::{first_value, is_fit, operation_of};
use crate::read::Read;
use crate::task::Task;
use asm_fields::{is_marked, label_in, read_items, without_operands};
use asm_text::{TokenKind, Tokens, lex_line};

// A line of this form, where the tokens from this one on are its operands.
#[tactic(auto, unfolding(crate::specs::Statements::read_form))]
fn read_form<'a>(form: &Form, line: &'a [u8], tokens: &Tokens, at: usize) -> Option<Task<'a>>
    requires tokens { All (IsTokenOf line.now) tokens.now }
    requires inside { at ≤ length tokens.now }
    ensures { seen_task_option result ≡ read_form (row_of form.now) (map (word_at line.entry.now) (drop at tokens.now)) }
{
    match read_items(form.items, line, tokens, at, without_operands()) {
        Some(operands) => {
            if is_fit(&operation_of(form.kind, operands, first_value(operands.number))) {
                Some(Task {
                    kind: form.kind,
                    operands,
                })
            } else {
                None
            }
        }
        None => None,
    }
}

// The first row of the name that the tokens fit.
fn chosen<'a>(
    table: &[Form],
    name: &[u8],
    line: &'a [u8],
    tokens: &Tokens,
    at: usize,
) -> Result<Task<'a>, AsmWhy>
    requires tokens { All (IsTokenOf line.now) tokens.now }
    requires inside { at ≤ length tokens.now }
    ensures { seen_chosen result ≡ chosen (form_rows table.now) AsmWhy.UnknownMnemonic name.now (map (word_at line.entry.now) (drop at tokens.now)) }
{
    let mut why = AsmWhy::UnknownMnemonic;
    for form in table {
        if form.name.as_bytes() == name {
            match read_form(form, line, tokens, at) {
                Some(task) => return Ok(task),
                None => why = AsmWhy::BadOperands,
            }
        }
    }
    Err(why)
}

#[tactic(auto, unfolding(crate::specs::Statements::task_named))]
fn task_named<'a>(
    name: &[u8],
    line: &'a [u8],
    tokens: &Tokens,
    at: usize,
) -> Result<Task<'a>, AsmWhy>
    requires tokens { All (IsTokenOf line.now) tokens.now }
    requires inside { at ≤ length tokens.now }
    ensures { seen_chosen result ≡ task_named name.now (map (word_at line.entry.now) (drop at tokens.now)) }
{
    chosen(&FORMS, name, line, tokens, at)
}

fn statement<'a>(line: &'a [u8], tokens: &Tokens, at: usize) -> Result<Option<Task<'a>>, AsmWhy>
    requires tokens { All (IsTokenOf line.now) tokens.now }
    requires inside { at ≤ length tokens.now }
    ensures { seen_statement result ≡ statement_of (map (word_at line.entry.now) (drop at tokens.now)) }
{
    if at == tokens.len() {
        return Ok(None);
    }
    let token = tokens.get(at);
    match token.kind {
        TokenKind::Name => {
            match task_named(&line[token.start..token.end], line, tokens, at + 1) {
                Ok(task) => Ok(Some(task)),
                Err(why) => Err(why),
            }
        }
        _ => Err(AsmWhy::UnknownMnemonic),
    }
}

fn label_of<'a>(line: &'a [u8], tokens: &Tokens) -> Option<&'a str>
    requires { All (IsTokenOf line.now) tokens.now }
    ensures label { option_map (λ t. t.now) result ≡ label_of (map (word_at line.entry.now) tokens.now) }
    ensures behind { IfSome result (λ t. 2 ≤ length tokens.now) }
{
    if tokens.len() < 2 {
        return None;
    }
    let name = tokens.get(0);
    let colon = tokens.get(1);
    if is_marked(TokenKind::Colon, colon) {
        label_in(line, name)
    } else {
        None
    }
}

/// The label of a line, and what else it asks for.
#[tactic(auto, unfolding(crate::specs::Statements::reading))]
pub fn read_line<'a>(line: &'a [u8]) -> Result<Read<'a>, AsmWhy>
    ensures { seen_reading result ≡ reading line.entry.now }
{
    let mut tokens = Tokens::new();
    match lex_line(line, &mut tokens) {
        Err(fault) => Err(AsmWhy::Lex(fault)),
        Ok(_) => match label_of(line, &tokens) {
            Some(label) => Ok(Read {
                label: Some(label),
                statement: statement(line, &tokens, 2),
            }),
            None => Ok(Read {
                label: None,
                statement: statement(line, &tokens, 0),
            }),
        },
    }
}
