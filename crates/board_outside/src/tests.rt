use super::*;
use crate::buffered_sink::BufferedSink;
use crate::puts::Puts;
use crate::reads::Reads;
use crate::streams::{read_front, write_whole};
use crate::tries::MOST_TRIES;
use hart_words::WantOfMemory;
use std::alloc::Global;
use std::fs;
use std::io::{Error, ErrorKind, Read, Write};
use std::test::Fail;

// A writer that takes one byte at a time, and then nothing.
#[derive(Drop)]
struct Narrow {
    room: usize,
}

impl Write for Narrow {
    fn write(&mut self, buf: &[u8]) -> std::io::Result<usize> {
        if self.room == 0 || buf.is_empty() {
            return Ok(0);
        }
        self.room -= 1;
        Ok(1)
    }

    fn flush(&mut self) -> std::io::Result<()> {
        Ok(())
    }
}

// A stream that is interrupted so often, then gives or takes once, and so on.
#[derive(Drop)]
struct Halting {
    interruptions: u32,
    left: u32,
}

impl Halting {
    fn is_interrupted(&mut self) -> bool {
        if self.left == 0 {
            self.left = self.interruptions;
            return false;
        }
        self.left -= 1;
        true
    }
}

impl Write for Halting {
    fn write(&mut self, buf: &[u8]) -> std::io::Result<usize> {
        if self.is_interrupted() {
            return Err(Error::from(ErrorKind::Interrupted));
        }
        Ok(buf.len())
    }

    fn flush(&mut self) -> std::io::Result<()> {
        Ok(())
    }
}

impl Read for Halting {
    fn read(&mut self, buf: &mut [u8]) -> std::io::Result<usize> {
        if self.is_interrupted() {
            return Err(Error::from(ErrorKind::Interrupted));
        }
        Ok(buf.len())
    }
}

// A reader that gives one byte at a time, and then nothing.
#[derive(Drop)]
struct Slow {
    left: usize,
}

impl Read for Slow {
    fn read(&mut self, buf: &mut [u8]) -> std::io::Result<usize> {
        if self.left == 0 || buf.is_empty() {
            return Ok(0);
        }
        buf[0] = 7;
        self.left -= 1;
        Ok(1)
    }
}

#[test]
fn streams_stop_where_nothing_is_taken_or_given(rt: HostRuntime) {
    let mut puts = Puts::new();
    assert_eq!(rt;
        write_whole(&mut puts, &mut Narrow { room: 5 }, b"hello"),
        Ok(())
    );
    assert_eq!(rt;
        write_whole(&mut puts, &mut Narrow { room: 4 }, b"hello"),
        Err(SinkFault::Failed)
    );
    assert_eq!(rt; puts.bytes(), 9);
    let mut reads = Reads::new();
    for (left, most, want) in [(5000, 4100, 4100), (3, 10, 3), (3, 0, 0)] {
        match read_front(&mut reads, rt.alloc(), &mut Slow { left }, most) {
            Ok(bytes) => assert_eq!(rt; bytes.len(), want),
            Err(_) => assert!(rt; false),
        }
    }
    assert_eq!(rt; (reads.bytes(), reads.ends()), (4103, 1));
}

// The last try counts.
#[test]
fn what_is_interrupted_is_tried_again(rt: HostRuntime) {
    for (interruptions, bytes) in [(0, 5), (MOST_TRIES - 1, 5), (MOST_TRIES, 0)] {
        let mut stream = Halting {
            interruptions,
            left: interruptions,
        };
        let mut puts = Puts::new();
        let written = write_whole(&mut puts, &mut stream, b"hello");
        assert_eq!(rt; (written.is_ok(), puts.bytes()), (bytes == 5, bytes));
        stream.left = interruptions;
        let mut reads = Reads::new();
        let read = read_front(&mut reads, rt.alloc(), &mut stream, 5);
        assert_eq!(rt; (read.is_ok(), reads.bytes()), (bytes == 5, bytes));
    }
}

// Texts are kept as long as they fit.
#[test]
fn text_is_kept_back(rt: HostRuntime) {
    let piece = [b'x'; 4096];
    let mut sink = BufferedSink::new(Halting {
        interruptions: 0,
        left: 0,
    });
    for (size, taken) in [(4096, 0), (4095, 0), (1, 0), (1, 8193), (4096, 8193)] {
        assert_eq!(rt; sink.put(&piece[..size]), Ok(()));
        assert_eq!(rt; sink.bytes_taken(), taken);
    }
    assert_eq!(rt; sink.finish(), Ok(()));
    assert_eq!(rt; sink.bytes_taken(), 12_289);
}

// After a failure nothing is kept.
#[test]
fn what_is_not_taken_is_dropped(rt: HostRuntime) {
    let mut sink = BufferedSink::new(Narrow { room: 3 });
    assert_eq!(rt; sink.put(b"hello"), Ok(()));
    assert_eq!(rt; sink.finish(), Err(SinkFault::Failed));
    assert_eq!(rt; sink.bytes_taken(), 3);
    assert_eq!(rt; sink.finish(), Ok(()));
    assert_eq!(rt; sink.put(b"end"), Ok(()));
    assert_eq!(rt; sink.finish(), Err(SinkFault::Failed));
    assert_eq!(rt; sink.bytes_taken(), 3);
}

fn fetched(
    shelf: &mut impl Shelf,
    alloc: Global,
    name: &str,
    limit: u64,
) -> Result<usize, ShelfFault> {
    if limit > MOST_FETCHED {
        return Err(ShelfFault::Memory);
    }
    match shelf.fetch(alloc, name, limit) {
        Ok(bytes) => Ok(bytes.len()),
        Err(fault) => Err(fault),
    }
}

// Files of one byte less than what a fetch gives, as many, and one more; none, and a folder.
#[test]
fn files_of_the_system(rt: HostRuntime) -> Result<(), Fail> {
    fs::write(&rt, "nine", b"123456789")?;
    fs::create_dir(&rt, "folder")?;
    let mut shelf = FileShelf::new(&rt);
    for (name, limit, want) in [
        ("nine", 9, Ok(9)),
        ("nine", 8, Ok(9)),
        ("nine", 7, Ok(8)),
        ("ten", 9, Err(ShelfFault::Absent)),
        ("folder", 9, Err(ShelfFault::Failed)),
    ] {
        assert_eq!(rt;
            fetched(&mut shelf, rt.alloc(), name, limit),
            want,
            "{name} {limit}"
        );
    }
    assert_eq!(rt; (shelf.bytes_read(), shelf.ends_met()), (26, 1));
    fs::remove_file(&rt, "nine")?;
    fs::remove_dir(&rt, "folder")?;
    Ok(())
}

#[test]
fn files_in_memory(rt: HostRuntime) -> Result<(), Fail> {
    let mut shelf = MemoryShelf::new(rt.alloc());
    shelf.hold("a.img", b"first")?;
    shelf.hold("b.img", b"second")?;
    shelf.hold("a.img", b"new")?;
    shelf.fail_at(3)?;
    for (name, want) in [
        ("a.img", Ok(3)),
        ("c.img", Err(ShelfFault::Absent)),
        ("b.img", Err(ShelfFault::Failed)),
        ("b.img", Ok(5)),
    ] {
        assert_eq!(rt; fetched(&mut shelf, rt.alloc(), name, 4), want, "{name}");
    }
    Ok(())
}

#[test]
fn bytes_in_memory(rt: HostRuntime) -> Result<(), WantOfMemory> {
    let mut sink = MemorySink::new(rt.alloc(), 8)?;
    sink.fail_at(2)?;
    for (piece, want) in [
        ("one", Ok(())),
        ("two", Err(SinkFault::Failed)),
        ("three", Ok(())),
        ("four", Err(SinkFault::Failed)),
    ] {
        assert_eq!(rt; sink.put(piece.as_bytes()), want, "{piece}");
    }
    assert_eq!(rt; sink.bytes(), b"onethree".as_slice());
    Ok(())
}

#[test]
fn the_quiet_sink_and_standard_output_take_all(rt: HostRuntime) {
    assert_eq!(rt; Quiet::new().put(b"gone"), Ok(()));
    let mut out = StdSink::new(&rt);
    assert_eq!(rt; out.put(b"written\n"), Ok(()));
    assert_eq!(rt; out.bytes_taken(), 0);
    assert_eq!(rt; out.finish(), Ok(()));
    assert_eq!(rt; out.bytes_taken(), 8);
}

#[test]
fn words_in_order(rt: HostRuntime) -> Result<(), WantOfMemory> {
    let mut words = Words::new(rt.alloc());
    words.push("run")?;
    words.push("first.bin")?;
    assert_eq!(rt; words.len(), 2);
    assert_eq!(rt; words.get(1), "first.bin");
    assert_eq!(rt; words.as_slice().len(), 2);
    Ok(())
}
