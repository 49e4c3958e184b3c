use crate::part::Part;
use crate::part_reading::read_part;

#[test]
fn words_of_parts(rt: HostRuntime) {
    let all = Part {
        number: 0,
        parts: 1,
    };
    assert_eq!(rt; read_part(None), Some(all));
    assert_eq!(rt; read_part(Some("0/1")), Some(all));
    let last = Part {
        number: 999_999,
        parts: 1_000_000,
    };
    assert_eq!(rt; read_part(Some("999999/1000000")), Some(last));
    for word in [
        "",
        "/",
        "0",
        "0/",
        "/1",
        "1/1",
        "0/0",
        "0/01",
        "00/1",
        "+0/1",
        "0/1/2",
        "0/1000001",
        " 0/1",
    ] {
        assert_eq!(rt; read_part(Some(word)), None);
    }
}
