// A device that is moved to another place.
ghost use Rattle.std.specs.Prelude.{◌≡◌, ◌+◌, ◌%◌, ◌≤◌, ◌∷◌, refl};
ghost use Rattle.device_model.specs.declared.device.TheConstants.{REGION_LEN};
ghost use Rattle.device_model.specs.Window.{moved_up};
ghost use Rattle.device_model.specs.Sound.Window.{moved_up_is_sound};

use crate::device::Device;
use crate::stimulus::Stimulus;
use hart_words::WantOfMemory;
use std::alloc::Global;

/// A device whose every register is moved up by a base. Its state is the base, and then the device's state.
#[derive(Drop)]
pub struct Window<D: Device> {
    base: u32,
    device: D,
    ghost multiple: { base % 4 ≡ 0 },
    ghost ends: { base + D.means.high (D.state device) ≤ REGION_LEN },
}

impl<D: Device> Window<D> {
    pub fn new(base: u32, device: D) -> Window<D>
        requires multiple { base % 4 ≡ 0 }
        requires ends { base + D.means.high (D.state device) ≤ REGION_LEN }
        ensures { ⟦<Window<D> as Device>⟧.state result ≡ base ∷ D.state device }
    {
        Window { base, device }
    }
}

impl<D: Device> Device for Window<D> {
    ghost means = { moved_up D.means };

    ghost state = { λ w. w.base ∷ D.state w.device };

    #[inline]
    fn low(&self) -> u32 {
        self.base + self.device.low()
    }

    #[inline]
    fn high(&self) -> u32 {
        self.base + self.device.high()
    }

    #[inline]
    fn line_count(&self) -> u32 {
        self.device.line_count()
    }

    #[inline]
    fn load(&mut self, at: u32, width: u32) -> Option<u32> {
        if at < self.base {
            None
        } else {
            self.device.load(at - self.base, width)
        }
    }

    #[inline]
    fn store(&mut self, at: u32, width: u32, value: u32) -> bool {
        if at < self.base {
            false
        } else {
            self.device.store(at - self.base, width, value)
        }
    }

    #[inline]
    fn stimulus(&mut self, what: Stimulus) {
        self.device.stimulus(what);
    }

    #[inline]
    fn line(&self, k: u32) -> bool {
        self.device.line(k)
    }

    #[inline]
    fn halt(&self) -> Option<u32> {
        self.device.halt()
    }

    #[inline]
    fn output_len(&self) -> u32 {
        self.device.output_len()
    }

    #[inline]
    fn output(&self, i: u32) -> u8 {
        self.device.output(i)
    }

    fn copy(&self, alloc: Global) -> Result<Self, WantOfMemory> {
        Ok(Window {
            base: self.base,
            device: self.device.copy(alloc)?,
        })
    }

    ghost is_state = { λ w. record { listed = refl; own = D.is_state w.device; multiple = w.multiple; ends = w.ends } };

    ghost sound = { moved_up_is_sound D.means D.sound };
}
