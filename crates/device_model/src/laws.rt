// What `Window` and `Both` are, in terms of the devices that they are made of. Each law is the contract of a function that does nothing.
ghost use Rattle.std.specs.Prelude.{ℕ, List};
ghost use Rattle.device_model.specs.Laws.{IsMovedUp, IsSideBySide};

use crate::both::Both;
use crate::device::Device;
use crate::window::Window;

/// Every register of the device is moved up by the base, and all else is the device's own.
pub fn window_is_moved_up<D: Device>()
    ensures { (base : ℕ) (s : List ℕ) → IsMovedUp D.means ⟦<Window<D> as Device>⟧.means base s }
{}

/// An access changes the device that it goes to and leaves the other, and what comes from outside reaches both.
pub fn both_are_side_by_side<A: Device, B: Device>()
    ensures { (x y : List ℕ) → IsSideBySide A.means B.means ⟦<Both<A, B> as Device>⟧.means x y }
{}
