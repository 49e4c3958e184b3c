// Names in tables.
ghost use Rattle.std.specs.Prelude.{◌≡◌};
ghost use Rattle.std.specs.Option.{option_map};
ghost use Rattle.asm_text.specs.Names.{number_in, name_in};
ghost use Rattle.asm_text.specs.Tables.{rows_of};

/// A name with its number.
#[derive(Clone, Copy, Drop)]
pub struct Named {
    pub name: &'static str,
    pub number: u16,
}

/// A row of a table of names.
#[macro_export]
macro_rules! row {
    ($name:literal, $number:literal) => {
        $crate::Named {
            name: $name,
            number: $number,
        }
    };
}

/// The number of a name of the table.
pub fn number_in(table: &[Named], name: &[u8]) -> Option<u16>
    ensures { result ≡ number_in (rows_of table.now) name.now }
{
    for row in table {
        if row.name.as_bytes() == name {
            return Some(row.number);
        }
    }
    None
}

/// The first name of a number of the table.
pub fn name_in(table: &[Named], number: u16) -> Option<&'static str>
    ensures { option_map (λ name. name.now) result ≡ name_in (rows_of table.now) number }
{
    for row in table {
        if row.number == number {
            return Some(row.name);
        }
    }
    None
}
