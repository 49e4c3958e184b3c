// Laws that the definitions meet. Each is the contract of a function that does nothing.
ghost use Rattle.std.specs.Prelude.{◌≡◌, ℕ, List};
ghost use Rattle.lab_names.specs.Name.{NameView};
ghost use Rattle.lab_names.specs.Table.{table_of, name_at, at_or_below, last_given, IsNearest};

/// In the table of names an address has the name that it is given last, and the one found at or below an address is that of the
/// greatest address that is given any.
pub fn tables_are_of_names_as_they_are_given()
    ensures last { (ns : List NameView) (at : ℕ) → name_at at (table_of ns) ≡ last_given ns at }
    ensures nearest { (ns : List NameView) (at : ℕ) → IsNearest (last_given ns) at (at_or_below at (table_of ns)) }
{}
