// The devices of the board.
ghost use Rattle.std.specs.Prelude.{◌≡◌, ◌≤◌, length, IfOk};
ghost use Rattle.board_template.specs.declared.flash.TheConstants.{CONTENTS_LEN};
ghost use Rattle.board_template.specs.Template.{template_state};

use crate::alarm::Alarm;
use crate::flash::Flash;
use crate::watchdog::Watchdog;
use board_devices::Uart;
use device_model::{Both, Device, Window};
use hart_words::WantOfMemory;
use std::alloc::Global;

/// The Flash and the Watchdog.
pub type TwoOthers = Both<Window<Flash>, Window<Watchdog>>;

/// The Alarm and these.
pub type AlarmAndOthers = Both<Window<Alarm>, TwoOthers>;

/// The Uart and these.
pub type TemplateDevices = Both<Window<Uart>, AlarmAndOthers>;

const UART: u32 = 0x0000;

const ALARM: u32 = 0x1000;

const FLASH: u32 = 0x2000;

const WATCHDOG: u32 = 0x3000;

/// The four devices, as they are at first, with these contents of the Flash. Line 0 is the Uart's and
/// line 1 the Alarm's.
#[tactic(auto, unfolding(device_model::specs::Both::first_of, device_model::specs::Both::second_of))]
pub fn template_devices(alloc: Global, contents: &[u8]) -> Result<TemplateDevices, WantOfMemory>
    requires { length contents.now ≤ CONTENTS_LEN }
    ensures state { IfOk result (λ made. ⟦<TemplateDevices as Device>⟧.state made ≡ template_state contents.now) }
    ensures high { let all = ⟦<TemplateDevices as Device>⟧ in IfOk result (λ made. all.means.high (all.state made) ≡ 0x3004) }
    ensures line_count { let all = ⟦<TemplateDevices as Device>⟧ in IfOk result (λ made. length (all.means.lines (all.state made)) ≡ 2) }
{
    let uart = Window::new(UART, Uart::new(alloc)?);
    let alarm = Window::new(ALARM, Alarm::new());
    let flash = Window::new(FLASH, Flash::new(alloc, contents)?);
    let watchdog = Window::new(WATCHDOG, Watchdog::new());
    Ok(Both::new(uart, Both::new(alarm, Both::new(flash, watchdog))))
}
