// What a command is run over.
use crate::command::clic_main;
use board_outside::{MemoryShelf, MemorySink, Words};
use std::alloc::Global;
use std::process::Abort;
use std::test::Fail;
use tool_frame::Status;
use tool_work::Bench;

// No call has this number.
const NEVER: u64 = 100_000;

/// What a command is run over: the words, the files i.img, s.txt and p.s where they are there, the
/// numbers of the calls that fail, and the room of the sink.
#[derive(Clone, Copy)]
pub struct Case<'a> {
    pub words: &'a [&'a str],
    pub image: Option<&'a [u8]>,
    pub scenario: Option<&'a [u8]>,
    pub source: Option<&'a [u8]>,
    pub fetch: u64,
    pub put: u64,
    pub room: usize,
}

/// These words over these two files, where nothing fails and the sink has room.
pub fn given<'a>(words: &'a [&'a str], image: &'a [u8], scenario: &'a [u8]) -> Case<'a> {
    Case {
        words,
        image: Some(image),
        scenario: Some(scenario),
        source: None,
        fetch: NEVER,
        put: NEVER,
        room: 65_536,
    }
}

/// The words, and a source.
pub fn given_source<'a>(words: &'a [&'a str], source: &'a [u8]) -> Case<'a> {
    Case {
        image: None,
        scenario: None,
        source: Some(source),
        ..given(words, b"", b"")
    }
}

fn words_of(alloc: Global, list: &[&str]) -> Result<Words, Fail> {
    let mut words = Words::new(alloc);
    for word in list {
        words.push(word)?;
    }
    Ok(words)
}

fn shelf_of(alloc: Global, case: &Case) -> Result<MemoryShelf, Fail> {
    let mut shelf = MemoryShelf::new(alloc);
    if let Some(image) = case.image {
        shelf.hold("i.img", image)?;
    }
    if let Some(scenario) = case.scenario {
        shelf.hold("s.txt", scenario)?;
    }
    if let Some(source) = case.source {
        shelf.hold("p.s", source)?;
    }
    shelf.fail_at(case.fetch)?;
    Ok(shelf)
}

/// What it writes and answers, and the boards that it leaves on the bench.
pub fn answered_on(
    alloc: Global,
    case: &Case,
    bench: &mut Bench,
) -> Result<(Status, MemorySink), Fail> {
    let words = words_of(alloc, case.words)?;
    let mut shelf = shelf_of(alloc, case)?;
    let mut out = MemorySink::new(alloc, case.room)?;
    out.fail_at(case.put)?;
    let status = clic_main(alloc, &words, &mut shelf, bench, &mut out);
    Ok((status, out))
}

/// What it writes and answers.
pub fn answered(alloc: Global, case: &Case) -> Result<(Status, MemorySink), Fail> {
    let mut bench = Bench::new();
    answered_on(alloc, case, &mut bench)
}

/// It answers this status and writes this text.
pub fn answers(
    rt: &impl Abort,
    alloc: Global,
    case: &Case,
    status: Status,
    text: &[u8],
) -> Result<(), Fail> {
    let (given, out) = answered(alloc, case)?;
    assert_eq!(rt; given, status);
    assert_eq!(rt; out.bytes(), text);
    Ok(())
}
