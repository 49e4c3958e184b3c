// A device that halts the board unless it is fed.
ghost use Rattle.std.specs.Prelude.{◌≡◌, false, ◌-◌, ◌^◌, ◌<◌, ◌∷◌, [], refl};
ghost use Rattle.device_model.specs.WordRegisters.{word_device};
ghost use Rattle.board_template.specs.Watchdog.{watchdog};
ghost use Rattle.board_template.specs.Sound.Watchdog.{watchdog_is_sound};

use device_model::{Device, Stimulus};
use hart_words::WantOfMemory;
use std::alloc::Global;

/// Counts down, and halts the board with code 1 where nothing is left. A store of how much is left
/// feeds it, and a store of 0 halts the board at once.
#[derive(Drop)]
pub struct Watchdog {
    left: u32,
    ghost fits: { left < 2 ^ 32 },
}

const LEFT: u32 = 0x0;

// The code with which it halts the board.
const UNFED: u32 = 1;

impl Watchdog {
    /// With the most left.
    pub fn new() -> Watchdog
        ensures { ⟦<Watchdog as Device>⟧.state result ≡ (2 ^ 32 - 1) ∷ [] }
    {
        Watchdog { left: u32::MAX }
    }
}

impl Device for Watchdog {
    ghost means = { word_device watchdog };

    ghost state = { λ w. w.left ∷ [] };

    #[inline]
    fn low(&self) -> u32 {
        0
    }

    #[inline]
    fn high(&self) -> u32 {
        LEFT + 4
    }

    #[inline]
    fn line_count(&self) -> u32 {
        0
    }

    #[inline]
    fn load(&mut self, at: u32, width: u32) -> Option<u32> {
        if width == 4 && at == LEFT {
            Some(self.left)
        } else {
            None
        }
    }

    #[inline]
    fn store(&mut self, at: u32, width: u32, value: u32) -> bool {
        if width == 4 && at == LEFT {
            self.left = value;
            true
        } else {
            false
        }
    }

    #[inline]
    fn stimulus(&mut self, what: Stimulus) {
        if let Stimulus::Tick(count) = what {
            self.left = self.left.saturating_sub(count);
        }
    }

    // It has no line.
    #[inline]
    fn line(&self, _k: u32) -> bool
        ensures { result ≡ false }
    {
        false
    }

    #[inline]
    fn halt(&self) -> Option<u32> {
        if self.left == 0 { Some(UNFED) } else { None }
    }

    #[inline]
    fn output_len(&self) -> u32 {
        0
    }

    // It has no output.
    #[inline]
    fn output(&self, _i: u32) -> u8
        ensures { result ≡ 0 }
    {
        0
    }

    fn copy(&self, _alloc: Global) -> Result<Self, WantOfMemory> {
        Ok(Watchdog { left: self.left })
    }

    ghost is_state = { λ w. record { listed = refl; left = w.fits } };

    ghost sound = { watchdog_is_sound };
}
