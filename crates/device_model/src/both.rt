// Two devices side by side.
ghost use Rattle.std.specs.Prelude.{◌≡◌, ◌+◌, ◌≤◌, length};
ghost use Rattle.device_model.specs.declared.device.TheConstants.{MAX_LINES};
ghost use Rattle.device_model.specs.Both.{joined, side_by_side};
ghost use Rattle.device_model.specs.Sound.Both.{joined_is_both, side_by_side_is_sound};

use crate::device::Device;
use crate::stimulus::Stimulus;
use hart_words::WantOfMemory;
use std::alloc::Global;

/// Two devices, of which the second has the offsets from its low on and the first those below.
/// Their state is the length of the first one's state, then the first one's state, then the second one's.
#[derive(Drop)]
pub struct Both<A: Device, B: Device> {
    first: A,
    second: B,
    ghost apart: { A.means.high (A.state first) ≤ B.means.low (B.state second) },
    ghost few: { length (A.means.lines (A.state first)) + length (B.means.lines (B.state second)) ≤ MAX_LINES },
}

impl<A: Device, B: Device> Both<A, B> {
    pub fn new(first: A, second: B) -> Both<A, B>
        requires apart { A.means.high (A.state first) ≤ B.means.low (B.state second) }
        requires few { length (A.means.lines (A.state first)) + length (B.means.lines (B.state second)) ≤ MAX_LINES }
        ensures { ⟦<Both<A, B> as Device>⟧.state result ≡ joined (A.state first) (B.state second) }
    {
        Both { first, second }
    }
}

#[tactic(auto, using(crate::specs::Sound::Both::first_joined, crate::specs::Sound::Both::second_joined))]
impl<A: Device, B: Device> Device for Both<A, B> {
    ghost means = { side_by_side A.means B.means };

    ghost state = { λ d. joined (A.state d.first) (B.state d.second) };

    #[inline]
    fn low(&self) -> u32 {
        self.first.low()
    }

    #[inline]
    fn high(&self) -> u32 {
        self.second.high()
    }

    /// The first device's lines, and then the second's.
    #[inline]
    fn line_count(&self) -> u32 {
        self.first.line_count() + self.second.line_count()
    }

    #[inline]
    fn load(&mut self, at: u32, width: u32) -> Option<u32> {
        if at < self.second.low() {
            self.first.load(at, width)
        } else {
            self.second.load(at, width)
        }
    }

    #[inline]
    fn store(&mut self, at: u32, width: u32, value: u32) -> bool {
        if at < self.second.low() {
            self.first.store(at, width, value)
        } else {
            self.second.store(at, width, value)
        }
    }

    /// Both devices take it.
    #[inline]
    fn stimulus(&mut self, what: Stimulus) {
        self.first.stimulus(what);
        self.second.stimulus(what);
    }

    #[inline]
    fn line(&self, k: u32) -> bool {
        let firsts = self.first.line_count();
        if k < firsts {
            self.first.line(k)
        } else {
            self.second.line(k - firsts)
        }
    }

    /// The first device's code, where it has halted, and else the second's.
    #[inline]
    fn halt(&self) -> Option<u32> {
        match self.first.halt() {
            Some(code) => Some(code),
            None => self.second.halt(),
        }
    }

    /// The first device's output, and then the second's, cut after 4,294,967,295 bytes.
    #[inline]
    fn output_len(&self) -> u32 {
        self.first
            .output_len()
            .saturating_add(self.second.output_len())
    }

    #[inline]
    fn output(&self, i: u32) -> u8 {
        let firsts = self.first.output_len();
        if i < firsts {
            self.first.output(i)
        } else {
            self.second.output(i - firsts)
        }
    }

    fn copy(&self, alloc: Global) -> Result<Self, WantOfMemory> {
        Ok(Both {
            first: self.first.copy(alloc)?,
            second: self.second.copy(alloc)?,
        })
    }

    ghost is_state = { λ d. joined_is_both A.means B.means (A.state d.first) (B.state d.second) (A.is_state d.first) (B.is_state d.second) d.apart d.few };

    ghost sound = { side_by_side_is_sound A.means B.means A.sound B.sound };
}
