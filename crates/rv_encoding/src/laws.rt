// What holds of the table as a whole.
ghost use Rattle.std.specs.Prelude.{AllPairs};
ghost use Rattle.rv_encoding.specs.Rows.{rows, AreApart};

/// No word is of two rows, so that a word spells one instruction at most.
pub fn rows_are_apart()
    ensures { AllPairs AreApart rows }
{}
