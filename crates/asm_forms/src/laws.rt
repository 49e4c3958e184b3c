// What holds of every line.
ghost use Rattle.std.specs.Prelude.{◌≡◌, ℕ, List, length, Some, Ok};
ghost use Rattle.asm_fields.specs.Operands.{Operands};
ghost use Rattle.asm_forms.specs.Operations.{made, extent_of, taken, bytes_of};
ghost use Rattle.asm_forms.specs.Statements.{Task, Fits, Reading, reading};

use crate::kind::Kind;

/// What a line asks for fits, but for what labels and distances will be.
pub fn what_is_read_fits()
    ensures { (line : List ℕ) (r : Reading) (k : Task) → reading line ≡ Ok r → r.statement ≡ Ok (Some k) → Fits k }
{}

/// A line has as many bytes as its form and its own numbers say, whatever its labels are.
pub fn a_length_needs_no_label(kind: Kind)
    ensures { (o : Operands) (n : ℕ) → length (bytes_of (made kind o n)) ≡ taken (extent_of kind o.amount) }
{}
