// Laws of the devices, in the words of those who use them. Each is the contract of a function that does nothing.
ghost use Rattle.board_devices.specs.Laws.{AreShipped, BytesAreReadInOrder, TicksAddUp};

use crate::all_devices::AllDevices;
use device_model::Device;

/// To the Ticker it is the same whether time comes in one piece or in several.
pub fn ticks_add_up()
    ensures { TicksAddUp }
{}

/// The Uart's bytes are read in the order in which they came.
pub fn bytes_are_read_in_order()
    ensures { BytesAreReadInOrder }
{}

/// Which offsets, lines, output and halt of the shipped devices are whose.
pub fn shipped_devices_map()
    ensures { AreShipped ⟦<AllDevices as Device>⟧.means }
{}
