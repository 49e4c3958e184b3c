// Which byte of the controller stands at an offset.
ghost use Rattle.std.specs.Prelude.{◌≡◌, ◌+◌, ◌*◌, ◌<◌, ◌≤◌, ◌↔◌, ℕ, Some};
ghost use Rattle.clic_regs.specs.Bytes.{input_at};

use crate::shape::Shape;

/// A byte of the controller's registers. Those of an input have its number.
#[derive(Clone, Copy, Debug, PartialEq, Eq, Drop)]
pub enum ClicByte {
    /// cliccfg.
    Config,
    /// The three bytes after cliccfg, which read 0.
    Reserved,
    /// clicintip.
    Pending(u32),
    /// clicintie.
    Enable(u32),
    /// clicintattr.
    Attribute(u32),
    /// clicintctl.
    Control(u32),
}

impl ClicByte {
    ghost use Rattle.clic_regs.specs.Bytes.{byte_at};

    /// The byte at an offset from the controller's first address, where it has that many inputs.
    #[inline]
    pub fn at(offset: u32, inputs: u32) -> Option<ClicByte>
        requires { inputs ≤ 4096 }
        ensures { result ≡ byte_at inputs offset }
    {
        match offset {
            0 => Some(ClicByte::Config),
            1..=3 => Some(ClicByte::Reserved),
            _ if offset < 0x1000 || offset >= 0x1000 + 4 * inputs => None,
            _ => {
                let input = (offset - 0x1000) / 4;
                match offset % 4 {
                    0 => Some(ClicByte::Pending(input)),
                    1 => Some(ClicByte::Enable(input)),
                    2 => Some(ClicByte::Attribute(input)),
                    _ => Some(ClicByte::Control(input)),
                }
            }
        }
    }
}

/// The input one of whose four bytes stands at an offset from the controller's first address.
#[inline]
#[tactic(auto, unfolding(crate::specs::Bytes::input_at))]
pub fn input_of(offset: u32, shape: Shape) -> Option<u32>
    ensures value { result ≡ input_at shape.inputs offset }
    ensures exact { (i : ℕ) → (result ≡ Some i) ↔ ((i < shape.inputs) × (0x1000 + 4 * i ≤ offset) × (offset < 0x1004 + 4 * i)) }
{
    match ClicByte::at(offset, shape.inputs()) {
        None | Some(ClicByte::Config | ClicByte::Reserved) => None,
        Some(ClicByte::Pending(i)) => Some(i),
        Some(ClicByte::Enable(i)) => Some(i),
        Some(ClicByte::Attribute(i)) => Some(i),
        Some(ClicByte::Control(i)) => Some(i),
    }
}
