// Names, one after the other.
use lab_names::Name;
use std::marker::Model;

/// The names of an ELF file's symbols, in the order of its table, seen as a list.
#[derive(Drop)]
pub struct ListedNames {
    pub(crate) names: Vec<Name>,
}

impl Model for ListedNames {
    ghost use Rattle.std.specs.Prelude.{List};
    ghost use Rattle.lab_names.specs.Name.{NameView};

    ghost Value = { List NameView };

    ghost view = { λ l. l.names.items };
}
