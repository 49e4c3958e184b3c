// A device that counts the bytes that come.
ghost use Rattle.std.specs.Prelude.{◌≡◌, ◌^◌, ◌<◌, ◌∷◌, [], refl};
ghost use Rattle.device_model.specs.WordRegisters.{word_device};
ghost use Rattle.counter_device.specs.Counter.{counter};
ghost use Rattle.counter_device.specs.CounterSound.{counter_is_sound};

use device_model::{Device, Stimulus};
use hart_words::WantOfMemory;
use std::alloc::Global;

/// Counts the bytes that come, in a register that can be read and written. Its line is high where
/// the count isn't 0. At the greatest count it halts the board with code 1.
#[derive(Drop)]
pub struct Counter {
    count: u32,
    ghost fits: { count < 2 ^ 32 },
}

const COUNT: u32 = 0x0;

impl Counter {
    pub fn new() -> Counter
        ensures { ⟦<Counter as Device>⟧.state result ≡ 0 ∷ [] }
    {
        Counter { count: 0 }
    }
}

impl Device for Counter {
    ghost means = { word_device counter };

    ghost state = { λ c. c.count ∷ [] };

    #[inline]
    fn low(&self) -> u32 {
        0
    }

    #[inline]
    fn high(&self) -> u32 {
        COUNT + 4
    }

    #[inline]
    fn line_count(&self) -> u32 {
        1
    }

    #[inline]
    fn load(&mut self, at: u32, width: u32) -> Option<u32> {
        if width == 4 && at == COUNT {
            Some(self.count)
        } else {
            None
        }
    }

    #[inline]
    fn store(&mut self, at: u32, width: u32, value: u32) -> bool {
        if width == 4 && at == COUNT {
            self.count = value;
            true
        } else {
            false
        }
    }

    #[inline]
    fn stimulus(&mut self, what: Stimulus) {
        if let Stimulus::Receive(_) = what {
            self.count = self.count.saturating_add(1);
        }
    }

    #[inline]
    fn line(&self, _k: u32) -> bool {
        self.count != 0
    }

    #[inline]
    fn halt(&self) -> Option<u32> {
        if self.count == u32::MAX {
            Some(1)
        } else {
            None
        }
    }

    #[inline]
    fn output_len(&self) -> u32 {
        0
    }

    // It has no output.
    #[inline]
    fn output(&self, _i: u32) -> u8
        ensures { result ≡ 0 }
    {
        0
    }

    fn copy(&self, _alloc: Global) -> Result<Self, WantOfMemory> {
        Ok(Counter { count: self.count })
    }

    ghost is_state = { λ c. record { listed = refl; count = c.fits } };

    ghost sound = { counter_is_sound };
}
