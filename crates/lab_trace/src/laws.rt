// What holds of every text to which something is added.
ghost use Rattle.std.specs.Prelude.{◌≡◌, ℕ, List};
ghost use Rattle.lab_names.specs.Name.{NameView};
ghost use Rattle.lab_trace.specs.Added.{plain_text};
ghost use Rattle.lab_trace.specs.Named.{named_text};

/// What is added to a text can be taken away again, whatever the text and the names are.
#[tactic(auto, using(crate::proofs::Back::text_back))]
pub fn what_is_added_can_be_taken_away()
    ensures { (names : List NameView) (text : List ℕ) → plain_text (named_text names text) ≡ text }
{}
