// Laws that the definitions meet. Each is the contract of a function that does nothing.
ghost use Rattle.std.specs.Prelude.{◌≡◌, ◌↔◌, ℕ, List, [], ◌∷◌, ◌++◌, Some, true};
ghost use Rattle.hart_board.specs.declared.event.Event.{Event};
ghost use Rattle.clic_regs.specs.Shape.{ClicShape, plain_shape};
ghost use Rattle.board_inputs.specs.Opening.{is_passed, shape_in, opening_of};
ghost use Rattle.board_inputs.specs.Lines.{meaning_of};
ghost use Rattle.board_inputs.specs.Spelling.{Spells, IsPassed, ArePassed, SaysShape};
ghost use Rattle.board_inputs.specs.declared.line_meaning.LineMeaning.TheVariants.{Passed, Told};

/// A line tells an event exactly where it spells it, and is passed over exactly where it is empty or a comment.
pub fn lines_are_spelled(inputs: u32)
    ensures told { (line : List ℕ) (e : Event) → (meaning_of inputs line ≡ Told e) ↔ Spells inputs line e }
    ensures passed { (line : List ℕ) → (meaning_of inputs line ≡ Passed) ↔ IsPassed line }
{}

/// A line gives a shape exactly where it says it, and the test tells what is passed over.
pub fn shapes_are_spelled()
    ensures said { (line : List ℕ) (s : ClicShape) → (shape_in line ≡ Some s) ↔ SaysShape line s }
    ensures passed { (line : List ℕ) → (is_passed line ≡ true) ↔ IsPassed line }
{}

/// A file has the shape that its first line says which isn't passed over, and else the plain one. All its other lines are
/// told.
pub fn files_have_the_shape_that_they_say()
    ensures said { (front rest : List (List ℕ)) (line : List ℕ) (s : ClicShape) → ArePassed front → SaysShape line s
        → opening_of (front ++ line ∷ rest) ≡ record { shape = s; lines = front ++ [] ∷ rest } }
    ensures plain { (front rest : List (List ℕ)) (line : List ℕ) → ArePassed front → ¬ IsPassed line → ((s : ClicShape) → ¬ SaysShape line s)
        → opening_of (front ++ line ∷ rest) ≡ record { shape = plain_shape; lines = front ++ line ∷ rest } }
    ensures empty { (lines : List (List ℕ)) → ArePassed lines → opening_of lines ≡ record { shape = plain_shape; lines = lines } }
{}
