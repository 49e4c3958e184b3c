// The lines of names.
ghost use Rattle.std.specs.Prelude.{◌≡◌, ◌++◌, IfOk, OnOk};
ghost use Rattle.std.specs.List.{list_all};
ghost use Rattle.lab_names.specs.Name.{is_name_byte, name_line, names_text};

use crate::name::Name;
use hart_words::{Line, Text, WantOfMemory};
use std::alloc::Global;

// Whether a byte may stand in a name.
fn is_name_byte(byte: u8) -> bool
    ensures { result ≡ is_name_byte byte }
{
    byte > b' ' && byte != 0x7F
}

/// Whether each byte may stand in a name.
pub fn are_name_bytes(text: &[u8]) -> bool
    ensures { result ≡ list_all is_name_byte text.now }
{
    text.iter().all(|byte| is_name_byte(*byte))
}

/// Adds the line of a name. The name may be longer than a `Line`.
#[tactic(auto, unfolding(crate::specs::Name::name_line))]
pub fn put_name(text: &mut Text, address: u32, name: &[u8]) -> Result<(), WantOfMemory>
    ensures { OnOk result (text.new ≡ text.old ++ name_line address name.now) }
{
    let mut line = Line::new();
    line.put_hex8(address);
    line.put_text(" ");
    text.push_bytes(line.bytes())?;
    text.push_bytes(name)?;
    text.push_bytes(b"\n")
}

/// The lines of names, one after the other.
pub fn text_of_names(alloc: Global, names: &[Name]) -> Result<Text, WantOfMemory>
    ensures { IfOk result (λ text. text ≡ names_text names.now) }
{
    let mut text = Text::new(alloc);
    for name in names {
        put_name(&mut text, name.address(), name.bytes())?;
    }
    Ok(text)
}
