// A sink that keeps all that is written.
ghost use Rattle.std.specs.Prelude.{◌≡◌, ◌++◌, [], Some, None, is_ok};
ghost use Rattle.board_outside.specs.Sink.{Writes};
ghost use Rattle.lab_sweep.specs.Sink.{sink_view};

use board_outside::{Sink, SinkFault};
use hart_words::Text;
use std::alloc::Global;
use std::marker::Model;

/// A text that grows by what is written into it. It fails where memory is wanting.
#[derive(Drop)]
pub struct TextSink {
    text: Text,
    faults: u64,
}

impl Model for TextSink {
    ghost use Rattle.lab_sweep.specs.Sink.{TextState};

    ghost Value = { TextState };

    ghost view = { λ s. record { text = s.text; faults = s.faults } };
}

impl TextSink {
    pub fn new(alloc: Global) -> TextSink
        ensures { result ≡ record { text = []; faults = 0 } }
    {
        TextSink {
            text: Text::new(alloc),
            faults: 0,
        }
    }

    pub fn bytes(&self) -> &[u8]
        ensures { result.now ≡ self.now.text }
    {
        self.text.bytes()
    }
}

impl Sink for TextSink {
    ghost told = { λ s. sink_view s };

    fn put(&mut self, bytes: &[u8]) -> Result<(), SinkFault> {
        match self.text.push_bytes(bytes) {
            Ok(()) => Ok(()),
            Err(_) => {
                self.faults = self.faults.saturating_add(1);
                Err(SinkFault::Failed)
            }
        }
    }
}
