// What the board asks of a device.
ghost use Rattle.std.specs.Prelude.{◌≡◌, ℕ, ◌*◌, ◌%◌, ◌^◌, ◌<◌, List, length, Some, is_some, slice_get, unwrap_or, IfOk};
ghost use Rattle.device_model.specs.Access.{IsWidth};
ghost use Rattle.device_model.specs.Meanings.{Meanings, IsSound};

use crate::stimulus::Stimulus;
use hart_words::WantOfMemory;
use std::alloc::Global;

/// How many offsets the region of the devices has.
pub const REGION_LEN: u32 = 0x1_0000;

/// How many lines the devices of a board may have together.
pub const MAX_LINES: u32 = 8;

/// A device: registers in a region of 65,536 bytes, lines to the interrupt controller, output, and a way to halt.
///
/// What each call does is a function of the device's state, which is seen as a list of numbers.
/// Two devices of one type with the same state can't be told apart.
pub trait Device: Sized + Drop {
    /// What the calls of this type answer and do.
    ghost means: { Meanings };

    /// The state, as a list of numbers.
    ghost state: { Self → List ℕ };

    /// The first offset that may have a register.
    fn low(&self) -> u32
        ensures { result ≡ means.low (state self.now) };

    /// The end of the offsets that may have a register.
    fn high(&self) -> u32
        ensures { result ≡ means.high (state self.now) };

    /// How many lines the device has.
    fn line_count(&self) -> u32
        ensures { result ≡ length (means.lines (state self.now)) };

    /// Loads a register. `None`: there is none to load, and nothing has changed.
    fn load(&mut self, at: u32, width: u32) -> Option<u32>
        requires width { IsWidth width }
        requires aligned { at % width ≡ 0 }
        requires in_region { at < REGION_LEN }
        ensures answer { result ≡ means.loaded (state self.old) at width }
        ensures after { state self.new ≡ means.after_load (state self.old) at width };

    /// Stores to a register. `false`: there is none to store to, and nothing has changed.
    fn store(&mut self, at: u32, width: u32, value: u32) -> bool
        requires width { IsWidth width }
        requires aligned { at % width ≡ 0 }
        requires in_region { at < REGION_LEN }
        requires fits { value < 2 ^ (8 * width) }
        ensures answer { result ≡ is_some (means.after_store (state self.old) at width value) }
        ensures after { state self.new ≡ unwrap_or (means.after_store (state self.old) at width value) (state self.old) };

    /// Takes what comes from outside.
    fn stimulus(&mut self, what: Stimulus)
        ensures { state self.new ≡ means.after_stimulus (state self.old) what };

    /// Whether the line is high.
    fn line(&self, k: u32) -> bool
        requires { k < length (means.lines (state self.now)) }
        ensures { slice_get (means.lines (state self.now)) k ≡ Some result };

    /// The code with which the device has halted the board, if it has.
    fn halt(&self) -> Option<u32>
        ensures { result ≡ means.halted (state self.now) };

    /// How many bytes the device has put out.
    fn output_len(&self) -> u32
        ensures { result ≡ length (means.output_of (state self.now)) };

    /// One of the bytes that the device has put out, of which the first is 0.
    fn output(&self, i: u32) -> u8
        requires { i < length (means.output_of (state self.now)) }
        ensures { slice_get (means.output_of (state self.now)) i ≡ Some result };

    /// A second device with the same state.
    fn copy(&self, alloc: Global) -> Result<Self, WantOfMemory>
        ensures { IfOk result (λ copied. state copied ≡ state self.now) };

    /// Every device is in one of its type's states.
    ghost is_state: { (device : Self) → means.IsState (state device) };

    /// No call changes low, high or the number of lines, and no register lies outside them.
    ghost sound: { IsSound means };
}
