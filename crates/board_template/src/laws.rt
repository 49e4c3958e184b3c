// Laws of the devices, in the words of those who use them. Each is the contract of a function that does nothing.
ghost use Rattle.board_template.specs.Laws.{AlarmWakesInTime, AreTemplate, FlashIsReadInOrder, WatchdogHaltsInTime};

use crate::places::TemplateDevices;
use device_model::Device;

/// In however many pieces time comes, the Alarm wakes at its time, and the Watchdog halts the board
/// where nothing is left.
pub fn time_comes_in_pieces()
    ensures wakes { AlarmWakesInTime }
    ensures halts { WatchdogHaltsInTime }
{}

/// The Flash's bytes are read in order.
pub fn flash_is_read_in_order()
    ensures { FlashIsReadInOrder }
{}

/// Which offsets, lines, output and halt of the devices are whose.
pub fn template_devices_map()
    ensures { AreTemplate ⟦<TemplateDevices as Device>⟧.means }
{}
