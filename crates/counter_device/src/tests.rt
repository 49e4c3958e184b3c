use super::*;
use device_model::{Device, Stimulus};
use std::test::Fail;

#[test]
fn counter_beside_the_shipped_devices(rt: HostRuntime) -> Result<(), Fail> {
    let mut devices = counting_devices(rt.alloc())?;
    assert_eq!(rt; devices.line_count(), 4);
    for _ in 0..3 {
        devices.stimulus(Stimulus::Receive(0x41));
    }
    assert!(rt; devices.line_count() == 4 && devices.line(3));
    assert_eq!(rt; devices.load(0x4000, 4), Some(3));
    assert_eq!(rt; devices.load(0x0000, 4), Some(0x41));
    assert!(rt; devices.store(0x4000, 4, 0));
    let copied = devices.copy(rt.alloc())?;
    assert!(rt; copied.line_count() == 4 && !copied.line(3));
    assert_eq!(rt; devices.load(0x4000, 2), None);
    Ok(())
}
