use super::*;
use device_model::laws::{both_are_side_by_side, window_is_moved_up};
use device_model::{Device, Stimulus, Window};
use std::test::Fail;

// Loads a word register through the bound.
fn word<D: Device>(device: &mut D, at: u16) -> Option<u32> {
    let at = u32::from(at);
    if at % 4 == 0 {
        device.load(at, 4)
    } else {
        None
    }
}

// Stores to a word register through the bound.
fn set_word<D: Device>(device: &mut D, at: u16, value: u32) -> bool {
    let at = u32::from(at);
    at % 4 == 0 && device.store(at, 4, value)
}

#[test]
fn ticker_counts_to_its_period(rt: HostRuntime) {
    let mut ticker = Ticker::new();
    assert!(rt; set_word(&mut ticker, 0x4, 10));
    assert!(rt; set_word(&mut ticker, 0x8, 1));
    for (n, count, flag) in [(25, 5, 1), (4, 9, 0), (1, 0, 1)] {
        ticker.stimulus(Stimulus::Tick(n));
        assert_eq!(rt; word(&mut ticker, 0x0), Some(count));
        assert_eq!(rt; word(&mut ticker, 0xC), Some(flag));
        assert!(rt; set_word(&mut ticker, 0xC, 1));
        assert_eq!(rt; word(&mut ticker, 0xC), Some(0));
    }
}

#[test]
fn shipped_devices_halt_by_a_store(rt: HostRuntime) -> Result<(), Fail> {
    let mut devices = shipped(rt.alloc())?;
    assert!(rt; !devices.store(0x3000, 2, 1));
    assert_eq!(rt; devices.halt(), None);
    assert!(rt; devices.store(0x3000, 4, 1));
    assert_eq!(rt; devices.halt(), Some(1));
    assert_eq!(rt; devices.output_len(), 0);
    Ok(())
}

// Each register is at its place, and no other.
#[test]
fn shipped_devices_by_their_places(rt: HostRuntime) -> Result<(), Fail> {
    let mut devices = shipped(rt.alloc())?;
    assert_eq!(rt; devices.line_count(), 3);
    assert_eq!(rt; devices.high(), 0x3004);
    for (at, value) in [
        (0x0008, 1),
        (0x1004, 7),
        (0x1008, 0x8000_0001),
        (0x2000, 9),
        (0x2004, 8),
    ] {
        assert!(rt; set_word(&mut devices, at, value));
        assert_eq!(rt; word(&mut devices, at), Some(value));
    }
    for at in [0x0014, 0x100C, 0x2010, 0x3000, 0x3004] {
        assert_eq!(rt; word(&mut devices, at), None);
    }
    devices.stimulus(Stimulus::Receive(0x41));
    devices.stimulus(Stimulus::Pins(0x8000_0000));
    let copied = devices.copy(rt.alloc())?;
    assert!(rt; copied.line(0) && copied.line(1) && !copied.line(2));
    assert_eq!(rt; word(&mut devices, 0x0000), Some(0x41));
    Ok(())
}

#[test]
fn uart_counts_what_it_has_no_room_for(rt: HostRuntime) -> Result<(), Fail> {
    let mut uart = Uart::new(rt.alloc())?;
    for i in 0..1025u32 {
        uart.stimulus(Stimulus::Receive((i % 256) as u8));
    }
    for i in 0..65_537u32 {
        assert!(rt; set_word(&mut uart, 0x0, i));
    }
    let mut uart = uart.copy(rt.alloc())?;
    assert_eq!(rt; word(&mut uart, 0xC), Some(1));
    assert_eq!(rt; word(&mut uart, 0x10), Some(1));
    assert_eq!(rt; word(&mut uart, 0x4), Some(3));
    for i in 0..1024u32 {
        assert_eq!(rt; word(&mut uart, 0x0), Some(i % 256));
    }
    assert_eq!(rt; word(&mut uart, 0x0), Some(0));
    assert_eq!(rt; word(&mut uart, 0x4), Some(2));
    assert_eq!(rt; uart.output_len(), 65_536);
    Ok(())
}

// The laws of a moved device and of two devices side by side, of the shipped ones.
#[test]
fn shipped_devices_are_moved_up_side_by_side(_: HostRuntime) {
    window_is_moved_up::<Uart>();
    window_is_moved_up::<Gpio>();
    window_is_moved_up::<Ticker>();
    window_is_moved_up::<Halter>();
    both_are_side_by_side::<Window<Ticker>, Window<Halter>>();
    both_are_side_by_side::<Window<Gpio>, TwoDevices>();
    both_are_side_by_side::<Window<Uart>, ThreeDevices>();
}
