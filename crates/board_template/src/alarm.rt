// A timer with a time to wake.
ghost use Rattle.std.specs.Prelude.{◌≡◌, ◌-◌, ◌^◌, ◌<◌, refl};
ghost use Rattle.device_model.specs.WordRegisters.{word_device};
ghost use Rattle.board_template.specs.Alarm.{alarm, alarm_list};
ghost use Rattle.board_template.specs.Sound.Alarm.{alarm_is_sound};

use device_model::{Device, Stimulus};
use hart_words::WantOfMemory;
use std::alloc::Global;

/// Counts time. Its line is high from the time to wake on.
#[derive(Drop)]
pub struct Alarm {
    time: u32,
    wake: u32,
    ghost time_fits: { time < 2 ^ 32 },
    ghost wake_fits: { wake < 2 ^ 32 },
}

const TIME: u32 = 0x0;

const WAKE: u32 = 0x4;

impl Alarm {
    /// At time 0, to wake at the greatest time.
    pub fn new() -> Alarm
        ensures { ⟦<Alarm as Device>⟧.state result ≡ alarm_list 0 (2 ^ 32 - 1) }
    {
        Alarm {
            time: 0,
            wake: u32::MAX,
        }
    }
}

impl Device for Alarm {
    ghost means = { word_device alarm };

    ghost state = { λ a. alarm_list a.time a.wake };

    #[inline]
    fn low(&self) -> u32 {
        0
    }

    #[inline]
    fn high(&self) -> u32 {
        WAKE + 4
    }

    #[inline]
    fn line_count(&self) -> u32 {
        1
    }

    #[inline]
    fn load(&mut self, at: u32, width: u32) -> Option<u32> {
        if width != 4 {
            return None;
        }
        match at {
            TIME => Some(self.time),
            WAKE => Some(self.wake),
            _ => None,
        }
    }

    #[inline]
    fn store(&mut self, at: u32, width: u32, value: u32) -> bool {
        if width != 4 {
            return false;
        }
        match at {
            TIME => self.time = value,
            WAKE => self.wake = value,
            _ => return false,
        }
        true
    }

    #[inline]
    fn stimulus(&mut self, what: Stimulus) {
        if let Stimulus::Tick(count) = what {
            self.time = self.time.saturating_add(count);
        }
    }

    #[inline]
    fn line(&self, _k: u32) -> bool {
        self.time >= self.wake
    }

    #[inline]
    fn halt(&self) -> Option<u32> {
        None
    }

    #[inline]
    fn output_len(&self) -> u32 {
        0
    }

    // It has no output.
    #[inline]
    fn output(&self, _i: u32) -> u8
        ensures { result ≡ 0 }
    {
        0
    }

    fn copy(&self, _alloc: Global) -> Result<Self, WantOfMemory> {
        Ok(Alarm {
            time: self.time,
            wake: self.wake,
        })
    }

    ghost is_state = { λ a. record { listed = refl; time = a.time_fits; wake = a.wake_fits } };

    ghost sound = { alarm_is_sound };
}
