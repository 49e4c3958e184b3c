// A serial port.
ghost use Rattle.std.specs.Prelude.{◌≡◌, ◌^◌, ◌<◌, ◌≤◌, ◌∷◌, [], All, length, IfOk, refl};
ghost use Rattle.device_model.specs.WordRegisters.{word_device};
ghost use Rattle.hart_words.specs.Bits.{bit};
ghost use Rattle.board_devices.specs.Uart.{uart, uart_list};
ghost use Rattle.board_devices.specs.Sound.Uart.{uart_is_sound, uart_is_state};

use crate::output_bytes::{OUTPUT_LEN, OutputBytes};
use crate::waiting_bytes::WaitingBytes;
use device_model::{Device, Stimulus};
use hart_words::WantOfMemory;
use std::alloc::Global;

/// Bytes that come wait to be read, up to 1,024, and bytes that are sent are kept, up to 65,536.
///
/// The room for both is made by `new` and `copy`; nothing else takes memory.
#[derive(Drop)]
pub struct Uart {
    enable: bool,
    overruns: u32,
    dropped: u32,
    waiting: WaitingBytes,
    output: OutputBytes,
    ghost overruns_fit: { overruns < 2 ^ 32 },
    ghost dropped_fits: { dropped < 2 ^ 32 },
    ghost bytes: { All (λ byte. byte < 2 ^ 8) waiting },
    ghost few_waiting: { length waiting ≤ 1024 },
    ghost few_sent: { length output ≤ 65536 },
}

const DATA: u32 = 0x0;

const STATUS: u32 = 0x4;

const ENABLE: u32 = 0x8;

const OVERRUNS: u32 = 0xC;

const DROPPED: u32 = 0x10;

impl Uart {
    /// Disabled, with nothing waiting and nothing put out.
    pub fn new(alloc: Global) -> Result<Uart, WantOfMemory>
        ensures { IfOk result (λ made. ⟦<Uart as Device>⟧.state made ≡ uart_list 0 0 0 [] []) }
    {
        Ok(Uart {
            enable: false,
            overruns: 0,
            dropped: 0,
            waiting: WaitingBytes::new(alloc)?,
            output: OutputBytes::new(alloc)?,
        })
    }
}

#[tactic(auto, using(crate::specs::Sound::Uart::waiting_listed, crate::specs::Sound::Uart::sent_listed, crate::specs::Sound::Uart::rest_fits))]
impl Device for Uart {
    ghost means = { word_device uart };

    ghost state = { λ u. uart_list (bit u.enable) u.overruns u.dropped u.waiting u.output };

    #[inline]
    fn low(&self) -> u32 {
        0
    }

    #[inline]
    fn high(&self) -> u32 {
        DROPPED + 4
    }

    #[inline]
    fn line_count(&self) -> u32 {
        1
    }

    #[inline]
    fn load(&mut self, at: u32, width: u32) -> Option<u32> {
        if width != 4 {
            return None;
        }
        match at {
            DATA => Some(u32::from(self.waiting.pop().unwrap_or(0))),
            STATUS => Some(if self.waiting.is_empty() { 2 } else { 3 }),
            ENABLE => Some(u32::from(self.enable)),
            OVERRUNS => Some(self.overruns),
            DROPPED => Some(self.dropped),
            _ => None,
        }
    }

    #[inline]
    fn store(&mut self, at: u32, width: u32, value: u32) -> bool {
        if width != 4 {
            return false;
        }
        match at {
            DATA => {
                if self.output.len() < OUTPUT_LEN {
                    self.output.push((value % 0x100) as u8);
                } else {
                    self.dropped = self.dropped.saturating_add(1);
                }
            }
            ENABLE => self.enable = value % 2 == 1,
            _ => return false,
        }
        true
    }

    #[inline]
    fn stimulus(&mut self, what: Stimulus) {
        if let Stimulus::Receive(byte) = what {
            if self.waiting.is_full() {
                self.overruns = self.overruns.saturating_add(1);
            } else {
                self.waiting.push(byte);
            }
        }
    }

    #[inline]
    fn line(&self, _k: u32) -> bool {
        self.enable && !self.waiting.is_empty()
    }

    #[inline]
    fn halt(&self) -> Option<u32> {
        None
    }

    #[inline]
    fn output_len(&self) -> u32 {
        self.output.len() as u32
    }

    #[inline]
    fn output(&self, i: u32) -> u8 {
        self.output.get(i as usize)
    }

    fn copy(&self, alloc: Global) -> Result<Self, WantOfMemory> {
        Ok(Uart {
            enable: self.enable,
            overruns: self.overruns,
            dropped: self.dropped,
            waiting: self.waiting.copy(alloc)?,
            output: self.output.copy(alloc)?,
        })
    }

    ghost is_state = { λ u. uart_is_state u.enable u.overruns u.dropped u.waiting u.output
        u.overruns_fit u.dropped_fits u.bytes u.few_waiting u.few_sent };

    ghost sound = { uart_is_sound };
}
