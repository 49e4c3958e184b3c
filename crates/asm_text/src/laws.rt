// Laws of the text, over the definitions alone.
ghost use Rattle.std.specs.Prelude.{◌≡◌, ℕ, ◌<◌, ◌≤◌, ◌↔◌, List, Contains, length, true, Some, None};
ghost use Rattle.std.specs.List.{flat_map};
ghost use Rattle.std.specs.declared.result.Result.{Result};
ghost use Rattle.asm_text.specs.Lexing.{lexed, spoken};
ghost use Rattle.asm_text.specs.declared.token.Token.{Token};
ghost use Rattle.asm_text.specs.declared.lex_fault.LexFault.{LexFault};
ghost use Rattle.asm_text.specs.Reading.{IsRead};
ghost use Rattle.asm_text.specs.Names.{registers, register_of, register_name, csrs, csr_of, csr_name};
ghost use Rattle.asm_text.specs.Pieces.{Piece, printed, words_in, are_apart, AreReadable, all_pass, is_inline, is_name};

/// A line that is printed as pieces is read as their words. No name or number may stand straight
/// before another, and there is room for 16 words.
#[tactic(auto, using(crate::proofs::Rereading::relexed))]
pub fn what_is_printed_is_read()
    ensures { (ps : List Piece) → are_apart ps ≡ true → AreReadable ps → length (flat_map words_in ps) ≤ 16
        → spoken (lexed (printed ps)) ≡ record { words = flat_map words_in ps; fault = None } }
{}

/// What is printed as pieces ends no line.
#[tactic(auto, using(crate::proofs::Inline::one_line))]
pub fn what_is_printed_is_one_line()
    ensures { (ps : List Piece) → AreReadable ps → all_pass is_inline (printed ps) ≡ true }
{}

/// A name has a number exactly where the table holds the two side by side.
pub fn names_are_those_of_the_tables()
    ensures registers { (name : List ℕ) (r : ℕ) → (register_of name ≡ Some r) ↔ Contains registers (name, r) }
    ensures csrs { (name : List ℕ) (n : ℕ) → (csr_of name ≡ Some n) ↔ Contains csrs (name, n) }
{}

/// What is printed for a register is a name, and is read as this register.
pub fn names_are_read_back()
    ensures registers { (r : ℕ) → r < 32 → (register_of (register_name r) ≡ Some r) × (is_name (register_name r) ≡ true) }
    ensures csrs { (name : List ℕ) (n : ℕ) → csr_name n ≡ Some name → (csr_of name ≡ Some n) × (is_name name ≡ true) }
{}

/// A line is read in one way: what it is to read it leaves no choice.
pub fn a_line_is_read_in_one_way()
    ensures { (line : List ℕ) (ts us : List Token) (a b : Result (Unit {0}) LexFault) → IsRead line ts a → IsRead line us b → (ts ≡ us) × (a ≡ b) }
{}
