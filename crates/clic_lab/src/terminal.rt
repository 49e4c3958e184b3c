// How far a sweep has come, on a terminal.
use hart_words::Line;
use lab_sweep::Progress;
use std::io::{IsTerminal, Write};
use std::rt::Clock;
use std::time::{Duration, Instant};

// How many seconds two lines are apart at least.
const BETWEEN: u64 = 1;

/// Writes a line a second at most, and none where the output is no terminal or the clock can't be read.
#[derive(Drop)]
pub struct Terminal<'a, C: Clock, W: Write + IsTerminal> {
    clock: &'a C,
    out: W,
    last: Option<Instant>,
}

impl<'a, C: Clock, W: Write + IsTerminal> Terminal<'a, C, W> {
    /// The first line comes after a second.
    pub fn new(clock: &'a C, out: W) -> Terminal<'a, C, W> {
        let last = if out.is_terminal() {
            Instant::now(clock).ok()
        } else {
            None
        };
        Terminal { clock, out, last }
    }
}

impl<C: Clock, W: Write + IsTerminal> Progress for Terminal<'_, C, W> {
    fn tell(&mut self, done: u64, all: u64) {
        let Some(last) = self.last else {
            return;
        };
        let Ok(now) = Instant::now(self.clock) else {
            return;
        };
        if now.saturating_duration_since(last) < Duration::from_secs(BETWEEN) {
            return;
        }
        let mut line = Line::new();
        line.put_text("sweep: ");
        line.put_dec(done);
        line.put_text(" of ");
        line.put_dec(all);
        line.put_text(" counts\n");
        let _ = self.out.write_all(line.bytes());
        self.last = Some(now);
    }
}
