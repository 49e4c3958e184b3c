// The shipped devices, with a counter beside them.
ghost use Rattle.std.specs.Prelude.{◌≡◌, ◌∷◌, [], length, IfOk};
ghost use Rattle.device_model.specs.Both.{joined};
ghost use Rattle.board_devices.specs.Shipped.{shipped_state};

use crate::counter::Counter;
use board_devices::{AllDevices, shipped};
use device_model::{Both, Device, Window};
use hart_words::WantOfMemory;
use std::alloc::Global;

/// The shipped devices and a counter, which has the offset 0x4000 and line 3.
pub type CountingDevices = Both<AllDevices, Window<Counter>>;

const COUNTER: u32 = 0x4000;

pub fn counting_devices(alloc: Global) -> Result<CountingDevices, WantOfMemory>
    ensures { IfOk result (λ made. ⟦<CountingDevices as Device>⟧.state made ≡ joined shipped_state (0x4000 ∷ 0 ∷ [])) }
{
    let counter = Window::new(COUNTER, Counter::new());
    Ok(Both::new(shipped(alloc)?, counter))
}
