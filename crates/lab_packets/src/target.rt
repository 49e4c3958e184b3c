// The description of the registers.
ghost use Rattle.std.specs.Prelude.{◌≡◌, ◌++◌, ◌∷◌, if◌then◌else◌, OnOk};
ghost use Rattle.lab_packets.specs.Answers.{target_text, text_piece};

use crate::frame_reader::MOST_DATA;
use crate::reply::Reply;
use hart_words::{Text, WantOfMemory};

/// x0 to x31 and pc as 0 to 32, and twelve control registers as 65 and their number.
const TARGET: [u8; 2848] = *br#"<?xml version="1.0"?>
<!DOCTYPE target SYSTEM "gdb-target.dtd">
<target version="1.0">
<architecture>riscv:rv32</architecture>
<feature name="org.gnu.gdb.riscv.cpu">
<reg name="zero" bitsize="32" regnum="0" type="int"/>
<reg name="ra" bitsize="32" regnum="1" type="code_ptr"/>
<reg name="sp" bitsize="32" regnum="2" type="data_ptr"/>
<reg name="gp" bitsize="32" regnum="3" type="data_ptr"/>
<reg name="tp" bitsize="32" regnum="4" type="data_ptr"/>
<reg name="t0" bitsize="32" regnum="5" type="int"/>
<reg name="t1" bitsize="32" regnum="6" type="int"/>
<reg name="t2" bitsize="32" regnum="7" type="int"/>
<reg name="fp" bitsize="32" regnum="8" type="data_ptr"/>
<reg name="s1" bitsize="32" regnum="9" type="int"/>
<reg name="a0" bitsize="32" regnum="10" type="int"/>
<reg name="a1" bitsize="32" regnum="11" type="int"/>
<reg name="a2" bitsize="32" regnum="12" type="int"/>
<reg name="a3" bitsize="32" regnum="13" type="int"/>
<reg name="a4" bitsize="32" regnum="14" type="int"/>
<reg name="a5" bitsize="32" regnum="15" type="int"/>
<reg name="a6" bitsize="32" regnum="16" type="int"/>
<reg name="a7" bitsize="32" regnum="17" type="int"/>
<reg name="s2" bitsize="32" regnum="18" type="int"/>
<reg name="s3" bitsize="32" regnum="19" type="int"/>
<reg name="s4" bitsize="32" regnum="20" type="int"/>
<reg name="s5" bitsize="32" regnum="21" type="int"/>
<reg name="s6" bitsize="32" regnum="22" type="int"/>
<reg name="s7" bitsize="32" regnum="23" type="int"/>
<reg name="s8" bitsize="32" regnum="24" type="int"/>
<reg name="s9" bitsize="32" regnum="25" type="int"/>
<reg name="s10" bitsize="32" regnum="26" type="int"/>
<reg name="s11" bitsize="32" regnum="27" type="int"/>
<reg name="t3" bitsize="32" regnum="28" type="int"/>
<reg name="t4" bitsize="32" regnum="29" type="int"/>
<reg name="t5" bitsize="32" regnum="30" type="int"/>
<reg name="t6" bitsize="32" regnum="31" type="int"/>
<reg name="pc" bitsize="32" regnum="32" type="code_ptr"/>
</feature>
<feature name="org.gnu.gdb.riscv.csr">
<reg name="mstatus" bitsize="32" regnum="833" type="int" group="csr"/>
<reg name="misa" bitsize="32" regnum="834" type="int" group="csr"/>
<reg name="mie" bitsize="32" regnum="837" type="int" group="csr"/>
<reg name="mtvec" bitsize="32" regnum="838" type="int" group="csr"/>
<reg name="mtvt" bitsize="32" regnum="840" type="int" group="csr"/>
<reg name="mscratch" bitsize="32" regnum="897" type="int" group="csr"/>
<reg name="mepc" bitsize="32" regnum="898" type="int" group="csr"/>
<reg name="mcause" bitsize="32" regnum="899" type="int" group="csr"/>
<reg name="mtval" bitsize="32" regnum="900" type="int" group="csr"/>
<reg name="mip" bitsize="32" regnum="901" type="int" group="csr"/>
<reg name="mintthresh" bitsize="32" regnum="904" type="int" group="csr"/>
<reg name="mintstatus" bitsize="32" regnum="4082" type="int" group="csr"/>
</feature>
</target>
"#;

/// The description of the registers.
#[tactic(auto, unfolding(crate::specs::Answers::target_text))]
pub fn target_text() -> &'static [u8]
    ensures { result.now ≡ target_text }
{
    &TARGET
}

// A letter that says whether more follows, and the piece.
fn put_lettered(text: &mut Text, more: bool, piece: &[u8]) -> Result<(), WantOfMemory>
    ensures { OnOk result (text.new ≡ text.old ++ (if more then 109 else 108) ∷ piece.now) }
{
    text.push_bytes(if more { b"m" } else { b"l" })?;
    text.push_bytes(piece)
}

/// Adds a piece of a text: so many bytes at most from an offset on.
#[tactic(auto, unfolding(crate::specs::Answers::text_piece))]
pub fn put_piece(text: &mut Text, whole: &[u8], offset: u32, count: u32) -> Result<(), WantOfMemory>
    ensures { OnOk result (text.new ≡ text.old ++ text_piece whole.now offset count) }
{
    let offset = offset as usize;
    if offset > whole.len() {
        return text.push_bytes(Reply::NoFile.data().as_bytes());
    }
    let rest = &whole[offset..];
    let count = (count as usize).min(MOST_DATA - 1).min(rest.len());
    put_lettered(text, offset + count < whole.len(), &rest[..count])
}
