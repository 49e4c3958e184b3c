use super::*;
use board_devices::Uart;
use device_model::laws::{both_are_side_by_side, window_is_moved_up};
use device_model::{Device, Stimulus, Window};
use std::test::Fail;

// Loads a word register through the bound.
fn word<D: Device>(device: &mut D, at: u16) -> Option<u32> {
    let at = u32::from(at);
    if at % 4 == 0 {
        device.load(at, 4)
    } else {
        None
    }
}

// Stores to a word register through the bound.
fn set_word<D: Device>(device: &mut D, at: u16, value: u32) -> bool {
    let at = u32::from(at);
    at % 4 == 0 && device.store(at, 4, value)
}

// The Alarm wakes at count 10, the Flash gives its bytes and then 0, and the Watchdog halts after 12 counts.
#[test]
fn devices_in_their_places(rt: HostRuntime) -> Result<(), Fail> {
    let mut devices = template_devices(rt.alloc(), b"ab")?;
    assert!(rt; devices.high() == 0x3004 && devices.line_count() == 2);
    assert!(rt; set_word(&mut devices, 0x1004, 10) && set_word(&mut devices, 0x3000, 12));
    for (count, wakes, halts) in [(9, false, None), (1, true, None), (2, true, Some(1))] {
        devices.stimulus(Stimulus::Tick(count));
        assert!(rt; devices.line_count() == 2 && devices.line(1) == wakes);
        assert_eq!(rt; devices.halt(), halts);
    }
    for (status, byte) in [(1, 0x61), (1, 0x62), (0, 0)] {
        assert_eq!(rt; word(&mut devices, 0x2004), Some(status));
        assert_eq!(rt; word(&mut devices, 0x2000), Some(byte));
    }
    assert!(rt; set_word(&mut devices, 0x2008, 1));
    let mut copied = devices.copy(rt.alloc())?;
    assert_eq!(rt; word(&mut copied, 0x2000), Some(0x62));
    assert_eq!(rt; word(&mut copied, 0x3000), Some(0));
    assert_eq!(rt; devices.output_len(), 0);
    Ok(())
}

// The laws of a moved device and of two devices side by side, of these.
#[test]
fn devices_are_moved_up_side_by_side(_: HostRuntime) {
    window_is_moved_up::<Alarm>();
    window_is_moved_up::<Flash>();
    window_is_moved_up::<Watchdog>();
    both_are_side_by_side::<Window<Flash>, Window<Watchdog>>();
    both_are_side_by_side::<Window<Alarm>, TwoOthers>();
    both_are_side_by_side::<Window<Uart>, AlarmAndOthers>();
}
