// Bytes that are read one after another.
ghost use Rattle.std.specs.Prelude.{◌≡◌, false, ◌+◌, ◌^◌, ◌<◌, ◌≤◌, All, length, min, slice_get, unwrap_or, IfOk, refl};
ghost use Rattle.device_model.specs.WordRegisters.{word_device};
ghost use Rattle.board_template.specs.Flash.{flash, flash_list};
ghost use Rattle.board_template.specs.Sound.Flash.{flash_is_sound};

use device_model::{Device, Stimulus};
use hart_words::WantOfMemory;
use std::alloc::Global;

/// How many bytes a Flash has at most.
pub const CONTENTS_LEN: usize = 65_536;

/// Bytes that are there from the start and never change. Each load of the first register gives the next one.
#[derive(Drop)]
pub struct Flash {
    place: u32,
    contents: Vec<u8>,
    ghost inside: { place ≤ length contents.items },
    ghost bytes: { All (λ byte. byte < 2 ^ 8) contents.items },
    ghost few: { length contents.items ≤ 65536 },
}

const DATA: u32 = 0x0;

const STATUS: u32 = 0x4;

const PLACE: u32 = 0x8;

// The same bytes in memory of their own.
fn copied(alloc: Global, contents: &[u8]) -> Result<Vec<u8>, WantOfMemory>
    ensures { IfOk result (λ bytes. bytes.items ≡ contents.now) }
{
    let mut bytes = Vec::new(alloc);
    bytes.extend_from_slice(contents)?;
    Ok(bytes)
}

impl Flash {
    /// At the first of these bytes.
    pub fn new(alloc: Global, contents: &[u8]) -> Result<Flash, WantOfMemory>
        requires { length contents.now ≤ CONTENTS_LEN }
        ensures { IfOk result (λ made. ⟦<Flash as Device>⟧.state made ≡ flash_list 0 contents.now) }
    {
        Ok(Flash {
            place: 0,
            contents: copied(alloc, contents)?,
        })
    }

    // The byte at the place, which moves on; 0 where none is left.
    fn next(&mut self) -> u8
        ensures byte { result ≡ unwrap_or (slice_get self.old.contents.items self.old.place) 0 }
        ensures place { self.new.place ≡ min (self.old.place + 1) (length self.old.contents.items) }
        ensures contents { self.new.contents ≡ self.old.contents }
    {
        match self.contents.get(self.place as usize) {
            Some(byte) => {
                self.place += 1;
                *byte
            }
            None => 0,
        }
    }
}

impl Device for Flash {
    ghost means = { word_device flash };

    ghost state = { λ f. flash_list f.place f.contents.items };

    #[inline]
    fn low(&self) -> u32 {
        0
    }

    #[inline]
    fn high(&self) -> u32 {
        PLACE + 4
    }

    #[inline]
    fn line_count(&self) -> u32 {
        0
    }

    #[inline]
    fn load(&mut self, at: u32, width: u32) -> Option<u32> {
        if width != 4 {
            return None;
        }
        match at {
            DATA => Some(u32::from(self.next())),
            STATUS => Some(u32::from((self.place as usize) < self.contents.len())),
            PLACE => Some(self.place),
            _ => None,
        }
    }

    #[inline]
    fn store(&mut self, at: u32, width: u32, value: u32) -> bool {
        if width == 4 && at == PLACE {
            self.place = value.min(self.contents.len() as u32);
            true
        } else {
            false
        }
    }

    #[inline]
    fn stimulus(&mut self, _what: Stimulus) {}

    // It has no line.
    #[inline]
    fn line(&self, _k: u32) -> bool
        ensures { result ≡ false }
    {
        false
    }

    #[inline]
    fn halt(&self) -> Option<u32> {
        None
    }

    #[inline]
    fn output_len(&self) -> u32 {
        0
    }

    // It has no output.
    #[inline]
    fn output(&self, _i: u32) -> u8
        ensures { result ≡ 0 }
    {
        0
    }

    fn copy(&self, alloc: Global) -> Result<Self, WantOfMemory> {
        Ok(Flash {
            place: self.place,
            contents: copied(alloc, &self.contents)?,
        })
    }

    ghost is_state = { λ f. record { listed = refl; place = f.inside; bytes = f.bytes; few = f.few } };

    ghost sound = { flash_is_sound };
}
