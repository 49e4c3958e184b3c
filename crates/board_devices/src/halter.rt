// A device that halts the board.
ghost use Rattle.std.specs.Prelude.{◌≡◌, false, ◌^◌, ◌<◌, []};
ghost use Rattle.std.specs.Option.{ForSome, option_to_list};
ghost use Rattle.device_model.specs.WordRegisters.{word_device};
ghost use Rattle.board_devices.specs.Halter.{halter};
ghost use Rattle.board_devices.specs.Sound.Halter.{halter_is_sound, halter_is_state};

use device_model::{Device, Stimulus};
use hart_words::WantOfMemory;
use std::alloc::Global;

/// Halts the board with the value that is stored. It has one register, for stores alone.
#[derive(Drop)]
pub struct Halter {
    code: Option<u32>,
    ghost fits: { ForSome code (λ c. c < 2 ^ 32) },
}

const CODE: u32 = 0x0;

impl Halter {
    /// Not halted.
    pub fn new() -> Halter
        ensures { ⟦<Halter as Device>⟧.state result ≡ [] }
    {
        Halter { code: None }
    }
}

impl Device for Halter {
    ghost means = { word_device halter };

    ghost state = { λ h. option_to_list h.code };

    #[inline]
    fn low(&self) -> u32 {
        0
    }

    #[inline]
    fn high(&self) -> u32 {
        CODE + 4
    }

    #[inline]
    fn line_count(&self) -> u32 {
        0
    }

    #[inline]
    fn load(&mut self, _at: u32, _width: u32) -> Option<u32> {
        None
    }

    #[inline]
    fn store(&mut self, at: u32, width: u32, value: u32) -> bool {
        if width == 4 && at == CODE {
            self.code = Some(value);
            true
        } else {
            false
        }
    }

    #[inline]
    fn stimulus(&mut self, _what: Stimulus) {}

    // It has no line.
    #[inline]
    fn line(&self, _k: u32) -> bool
        ensures { result ≡ false }
    {
        false
    }

    #[inline]
    fn halt(&self) -> Option<u32> {
        self.code
    }

    #[inline]
    fn output_len(&self) -> u32 {
        0
    }

    // It has no output.
    #[inline]
    fn output(&self, _i: u32) -> u8
        ensures { result ≡ 0 }
    {
        0
    }

    fn copy(&self, _alloc: Global) -> Result<Self, WantOfMemory> {
        Ok(Halter { code: self.code })
    }

    ghost is_state = { λ h. halter_is_state h.code h.fits };

    ghost sound = { halter_is_sound };
}
