// The devices of the shipped board.
ghost use Rattle.std.specs.Prelude.{◌≡◌, length, IfOk};
ghost use Rattle.board_devices.specs.Shipped.{shipped_state};

use crate::gpio::Gpio;
use crate::halter::Halter;
use crate::ticker::Ticker;
use crate::uart::Uart;
use device_model::{Both, Device, Window};
use hart_words::WantOfMemory;
use std::alloc::Global;

/// The Ticker and the Halter.
pub type TwoDevices = Both<Window<Ticker>, Window<Halter>>;

/// The Gpio and these.
pub type ThreeDevices = Both<Window<Gpio>, TwoDevices>;

/// The Uart and these.
pub type AllDevices = Both<Window<Uart>, ThreeDevices>;

const UART: u32 = 0x0000;

const GPIO: u32 = 0x1000;

const TICKER: u32 = 0x2000;

const HALTER: u32 = 0x3000;

/// The four devices, as they are at first. Line 0 is the Uart's, line 1 the Gpio's and line 2 the Ticker's.
#[tactic(auto, unfolding(device_model::specs::Both::first_of, device_model::specs::Both::second_of))]
pub fn shipped(alloc: Global) -> Result<AllDevices, WantOfMemory>
    ensures state { IfOk result (λ made. ⟦<AllDevices as Device>⟧.state made ≡ shipped_state) }
    ensures high { let all = ⟦<AllDevices as Device>⟧ in IfOk result (λ made. all.means.high (all.state made) ≡ 0x3004) }
    ensures line_count { let all = ⟦<AllDevices as Device>⟧ in IfOk result (λ made. length (all.means.lines (all.state made)) ≡ 3) }
{
    let uart = Window::new(UART, Uart::new(alloc)?);
    let gpio = Window::new(GPIO, Gpio::new());
    let ticker = Window::new(TICKER, Ticker::new());
    let halter = Window::new(HALTER, Halter::new());
    Ok(Both::new(uart, Both::new(gpio, Both::new(ticker, halter))))
}
