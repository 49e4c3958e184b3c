// A timer.
ghost use Rattle.std.specs.Prelude.{◌≡◌, ◌^◌, ◌<◌, ◌∷◌, [], refl};
ghost use Rattle.device_model.specs.WordRegisters.{word_device};
ghost use Rattle.hart_words.specs.Bits.{bit};
ghost use Rattle.board_devices.specs.Ticker.{ticker, ticker_list};
ghost use Rattle.hart_words.proofs.Bits.{bit_below};
ghost use Rattle.board_devices.specs.Sound.Ticker.{ticker_is_sound};

use device_model::{Device, Stimulus};
use hart_words::WantOfMemory;
use std::alloc::Global;

/// Counts time up to a period, where it raises its line and begins again.
#[derive(Drop)]
pub struct Ticker {
    count: u32,
    period: u32,
    enable: bool,
    flag: bool,
    ghost count_fits: { count < 2 ^ 32 },
    ghost period_fits: { period < 2 ^ 32 },
}

const COUNT: u32 = 0x0;

const PERIOD: u32 = 0x4;

const ENABLE: u32 = 0x8;

const FLAG: u32 = 0xC;

impl Ticker {
    /// Disabled, and everything is 0.
    pub fn new() -> Ticker
        ensures { ⟦<Ticker as Device>⟧.state result ≡ ticker_list 0 0 0 0 }
    {
        Ticker {
            count: 0,
            period: 0,
            enable: false,
            flag: false,
        }
    }
}

impl Device for Ticker {
    ghost means = { word_device ticker };

    ghost state = { λ t. ticker_list t.count t.period (bit t.enable) (bit t.flag) };

    #[inline]
    fn low(&self) -> u32 {
        0
    }

    #[inline]
    fn high(&self) -> u32 {
        FLAG + 4
    }

    #[inline]
    fn line_count(&self) -> u32 {
        1
    }

    #[inline]
    fn load(&mut self, at: u32, width: u32) -> Option<u32> {
        if width != 4 {
            return None;
        }
        match at {
            COUNT => Some(self.count),
            PERIOD => Some(self.period),
            ENABLE => Some(u32::from(self.enable)),
            FLAG => Some(u32::from(self.flag)),
            _ => None,
        }
    }

    #[inline]
    fn store(&mut self, at: u32, width: u32, value: u32) -> bool {
        if width != 4 {
            return false;
        }
        match at {
            COUNT => self.count = value,
            PERIOD => self.period = value,
            ENABLE => self.enable = value % 2 == 1,
            FLAG => self.flag = false,
            _ => return false,
        }
        true
    }

    #[inline]
    fn stimulus(&mut self, what: Stimulus) {
        if let Stimulus::Tick(n) = what {
            if self.enable && self.period != 0 {
                let total = u64::from(self.count) + u64::from(n);
                let period = u64::from(self.period);
                if total >= period {
                    self.flag = true;
                }
                self.count = (total % period) as u32;
            }
        }
    }

    #[inline]
    fn line(&self, _k: u32) -> bool {
        self.flag
    }

    #[inline]
    fn halt(&self) -> Option<u32> {
        None
    }

    #[inline]
    fn output_len(&self) -> u32 {
        0
    }

    // It has no output.
    #[inline]
    fn output(&self, _i: u32) -> u8
        ensures { result ≡ 0 }
    {
        0
    }

    fn copy(&self, _alloc: Global) -> Result<Self, WantOfMemory> {
        Ok(Ticker {
            count: self.count,
            period: self.period,
            enable: self.enable,
            flag: self.flag,
        })
    }

    ghost is_state = { λ t. record {
      listed = refl;
      count = t.count_fits;
      period = t.period_fits;
      enable = bit_below t.enable;
      flag = bit_below t.flag;
    } };

    ghost sound = { ticker_is_sound };
}
