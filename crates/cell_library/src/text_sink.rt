//! An output that keeps all of its text.

ghost use Rattle.std.specs.Prelude.{◌≡◌, [], Some};

use cell_io::{Sink, SinkFault};
use std::alloc::Global;

/// A text that grows. A put fails only where memory is short, and then takes nothing.
#[derive(Drop)]
pub struct TextSink {
    text: Vec<u8>,
    faults: u64,
}

impl TextSink {
    pub fn new(alloc: Global) -> TextSink
        ensures text { result.text.items ≡ [] }
        ensures faults { result.faults ≡ 0 }
    {
        TextSink {
            text: Vec::new(alloc),
            faults: 0,
        }
    }

    /// All that was put.
    pub fn into_text(self) -> Vec<u8>
        ensures { result ≡ self.text }
    {
        self.text
    }
}

impl Sink for TextSink {
    ghost taken = { λ s. Some s.text.items };

    ghost faults = { λ s. s.faults };

    fn put(&mut self, bytes: &[u8]) -> Result<(), SinkFault> {
        if self.text.extend_from_slice(bytes).is_ok() {
            return Ok(());
        }
        self.faults = self.faults.saturating_add(1);
        Err(SinkFault)
    }
}
