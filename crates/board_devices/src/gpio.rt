// Pins.
ghost use Rattle.std.specs.Prelude.{◌≡◌, ◌^◌, ◌<◌, ◌∷◌, [], refl};
ghost use Rattle.device_model.specs.WordRegisters.{word_device};
ghost use Rattle.board_devices.specs.Gpio.{gpio, gpio_list};
ghost use Rattle.board_devices.specs.Sound.Gpio.{gpio_is_sound};

use device_model::{Device, Stimulus};
use hart_words::WantOfMemory;
use std::alloc::Global;

/// 32 pins that come from outside, 32 that go out, and a line for those of the former that the mask names.
#[derive(Drop)]
pub struct Gpio {
    pins: u32,
    out: u32,
    mask: u32,
    ghost pins_fit: { pins < 2 ^ 32 },
    ghost out_fits: { out < 2 ^ 32 },
    ghost mask_fits: { mask < 2 ^ 32 },
}

const PINS: u32 = 0x0;

const OUT: u32 = 0x4;

const MASK: u32 = 0x8;

impl Gpio {
    /// All pins are low.
    pub fn new() -> Gpio
        ensures { ⟦<Gpio as Device>⟧.state result ≡ gpio_list 0 0 0 }
    {
        Gpio {
            pins: 0,
            out: 0,
            mask: 0,
        }
    }
}

impl Device for Gpio {
    ghost means = { word_device gpio };

    ghost state = { λ g. gpio_list g.pins g.out g.mask };

    #[inline]
    fn low(&self) -> u32 {
        0
    }

    #[inline]
    fn high(&self) -> u32 {
        MASK + 4
    }

    #[inline]
    fn line_count(&self) -> u32 {
        1
    }

    #[inline]
    fn load(&mut self, at: u32, width: u32) -> Option<u32> {
        if width != 4 {
            return None;
        }
        match at {
            PINS => Some(self.pins),
            OUT => Some(self.out),
            MASK => Some(self.mask),
            _ => None,
        }
    }

    #[inline]
    fn store(&mut self, at: u32, width: u32, value: u32) -> bool {
        if width != 4 {
            return false;
        }
        match at {
            OUT => self.out = value,
            MASK => self.mask = value,
            _ => return false,
        }
        true
    }

    #[inline]
    fn stimulus(&mut self, what: Stimulus) {
        if let Stimulus::Pins(pins) = what {
            self.pins = pins;
        }
    }

    #[inline]
    fn line(&self, _k: u32) -> bool {
        self.pins & self.mask != 0
    }

    #[inline]
    fn halt(&self) -> Option<u32> {
        None
    }

    #[inline]
    fn output_len(&self) -> u32 {
        0
    }

    // It has no output.
    #[inline]
    fn output(&self, _i: u32) -> u8
        ensures { result ≡ 0 }
    {
        0
    }

    fn copy(&self, _alloc: Global) -> Result<Self, WantOfMemory> {
        Ok(Gpio {
            pins: self.pins,
            out: self.out,
            mask: self.mask,
        })
    }

    ghost is_state = { λ g. record { listed = refl; pins = g.pins_fit; out = g.out_fits; mask = g.mask_fits } };

    ghost sound = { gpio_is_sound };
}
