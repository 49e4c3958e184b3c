// The header of a file.
ghost use Rattle.std.specs.Prelude.{◌≡◌, ◌+◌, ◌<◌, ◌≤◌, ◌^◌, length, OnOk};
ghost use Rattle.lab_elf.specs.Fault.{Gives, first_of};
ghost use Rattle.lab_elf.specs.Header.{kind_tests, table_tests, header_of, IsWhole};

use crate::elf_error::{ElfError, refused};
use crate::elf_why::ElfWhy;
use crate::numbers::{half_at, is_inside, word_at};

// 7F and ELF as a number, its first byte lowest.
const MAGIC: u32 = 0x464C_457F;

// The length of the header.
const HEADER_LEN: usize = 52;

// The lengths of a program header and of a section header.
pub(crate) const PROGRAM_LEN: u32 = 32;

pub(crate) const SECTION_LEN: u32 = 40;

// An executable, and RISC-V.
const EXECUTABLE: u16 = 2;

const RISC_V: u16 = 243;

// Refuses what is no executable of RISC-V with 32 bits.
fn check_kind(bytes: &[u8]) -> Result<(), ElfError>
    ensures gives { Gives (λ done. done) result (first_of (kind_tests bytes.now)) }
    ensures long { OnOk result (52 ≤ length bytes.now) }
{
    if bytes.len() < 4 {
        return refused(0, ElfWhy::Truncated);
    }
    if word_at(bytes, 0) != MAGIC {
        return refused(0, ElfWhy::BadMagic);
    }
    if bytes.len() < HEADER_LEN {
        return refused(4, ElfWhy::Truncated);
    }
    if bytes[4] != 1 {
        return refused(4, ElfWhy::BadClass);
    }
    if bytes[5] != 1 {
        return refused(5, ElfWhy::BadOrder);
    }
    if half_at(bytes, 16) != EXECUTABLE {
        return refused(16, ElfWhy::NotLinked);
    }
    if half_at(bytes, 18) != RISC_V {
        return refused(18, ElfWhy::NotRiscV);
    }
    Ok(())
}

// Refuses headers of segments or of sections that aren't whole.
fn check_tables(bytes: &[u8]) -> Result<(), ElfError>
    requires { 52 ≤ length bytes.now }
    ensures { Gives (λ done. done) result (first_of (table_tests bytes.now)) }
{
    let programs = half_at(bytes, 44);
    if programs != 0 && u32::from(half_at(bytes, 42)) != PROGRAM_LEN {
        return refused(42, ElfWhy::BadHeader);
    }
    let program_bytes = PROGRAM_LEN * u32::from(programs);
    if programs != 0 && !is_inside(bytes, word_at(bytes, 28), program_bytes) {
        return refused(28, ElfWhy::Truncated);
    }
    let sections = half_at(bytes, 48);
    if sections == 0 {
        return refused(48, ElfWhy::NoSections);
    }
    if u32::from(half_at(bytes, 46)) != SECTION_LEN {
        return refused(46, ElfWhy::BadHeader);
    }
    let section_bytes = SECTION_LEN * u32::from(sections);
    if !is_inside(bytes, word_at(bytes, 32), section_bytes) {
        return refused(32, ElfWhy::Truncated);
    }
    Ok(())
}

// Refuses what is no executable of RISC-V, or isn't whole.
#[tactic(auto, unfolding(crate::specs::Header::header_of))]
pub(crate) fn check_header(bytes: &[u8]) -> Result<(), ElfError>
    ensures gives { Gives (λ done. done) result (header_of bytes.now) }
    ensures whole { OnOk result (IsWhole bytes.now) }
{
    check_kind(bytes)?;
    check_tables(bytes)
}
