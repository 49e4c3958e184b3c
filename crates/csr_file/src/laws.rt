// Laws of the registers, over the definitions alone.
ghost use Rattle.std.specs.Prelude.{◌≡◌, ℕ, IsTrue, Some};
ghost use Rattle.csr_file.specs.CsrState.{CsrState, IsCsrState};
ghost use Rattle.csr_file.specs.Views.{mstatus, mcause, IsMstatus, IsMcause};
ghost use Rattle.csr_file.specs.Table.{read, written, is_read_only};

/// Each field of mstatus and of mcause stands in its bits, and the other bits are 0.
pub fn fields_stand_in_their_bits()
    ensures mstatus { (c : CsrState) → IsMstatus c (mstatus c) }
    ensures mcause { (c : CsrState) → IsCsrState c → IsMcause c (mcause c) }
{}

/// Writing to a register what it reads changes nothing.
pub fn what_is_read_may_be_written_back()
    ensures { (c : CsrState) (number word : ℕ) → IsCsrState c → read c number ≡ Some word
        → ¬ IsTrue (is_read_only number) → written c number word ≡ Some c }
{}
