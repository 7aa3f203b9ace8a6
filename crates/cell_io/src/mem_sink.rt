// An output in memory.
ghost use Rattle.std.specs.Prelude.{◌≡◌, ◌+◌, ◌≤◌, ◌↔◌, ◌++◌, [], length, take, Some, IfOk, IsOk};
ghost use Rattle.std.specs.Option.{option_map};
ghost use Rattle.cell_io.specs.Sink.{FailsWithCause, Takes};
ghost use Rattle.cell_io.specs.Memory.{Tray, GoesOut, IsOnePut, count_out, cut_of};

use crate::{Sink, SinkFault};
use std::alloc::{AllocError, Global};
use std::marker::Model;

/// Of the call of this number, from 0, at most so many bytes go out, and then it fails.
#[derive(Clone, Copy, Debug, PartialEq, Eq)]
pub struct Cut {
    pub call: u32,
    pub bytes: u32,
}

/// Why no `MemSink` was made.
#[derive(Clone, Copy, Debug, PartialEq, Eq)]
pub enum SinkError {
    /// The room could not be taken.
    Memory,
}

impl From<AllocError> for SinkError {
    fn from(_: AllocError) -> SinkError {
        SinkError::Memory
    }
}

/// An output with room for so many bytes, which fails at its cuts and where its room ends.
#[derive(Drop)]
pub struct MemSink {
    bytes: Vec<u8>,
    room: usize,
    failing: Vec<Cut>,
    calls: u64,
    faults: u64,
}

impl Model for MemSink {
    ghost use Rattle.cell_io.specs.Memory.{Tray};
    ghost use Rattle.std.specs.Prelude.{◌≤◌, length, vec_capacity};

    ghost Value = { Tray };

    ghost view = { λ s. record { taken = s.bytes.items; room = s.room; failing = s.failing.items; calls = s.calls; faults = s.faults } };

    ghost invariant = { λ s. (length s.bytes.items ≤ s.room) × (s.room ≤ vec_capacity s.bytes) };
}

impl MemSink {
    /// Takes the room of `room` bytes. The cuts are those of single calls; of two cuts of one call
    /// the first counts. It is refused only where memory is short.
    pub fn new(alloc: Global, room: usize, failing: Vec<Cut>) -> Result<MemSink, SinkError>
        ensures { IfOk result (λ s. s ≡ record { taken = []; room = room; failing = failing.items; calls = 0; faults = 0 }) }
    {
        let bytes = Vec::with_capacity(alloc, room)?;
        Ok(MemSink {
            bytes,
            room,
            failing,
            calls: 0,
            faults: 0,
        })
    }

    /// The bytes taken so far.
    pub fn bytes(&self) -> &[u8]
        ensures { result.now ≡ self.now.taken }
    {
        self.bytes.as_slice()
    }
}

/// How many bytes of the call of this number go out, where it is cut.
fn cut_at(failing: &[Cut], call: u64) -> Option<usize>
    ensures { result ≡ cut_of failing.now call }
{
    let found = failing.iter().find(|cut| u64::from(cut.call) == call);
    match found {
        Some(cut) => Some(cut.bytes as usize),
        None => None,
    }
}

impl Sink for MemSink {
    ghost taken = { λ s. Some s.taken };

    ghost faults = { λ s. s.faults };

    fn put(&mut self, bytes: &[u8]) -> Result<(), SinkFault>
        ensures takes { Takes (Some self.old.taken) (Some self.new.taken) bytes.now result }
        ensures cause { FailsWithCause self.old.faults self.new.faults result }
        ensures ok { IsOk result ↔ GoesOut self.old bytes.now }
        ensures out { self.new.taken ≡ self.old.taken ++ take (count_out self.old bytes.now) bytes.now }
        ensures quiet { IsOk result → self.new.faults ≡ self.old.faults }
        ensures call { IsOnePut self.old self.new }
    {
        let call = self.calls;
        self.calls = call.saturating_add(1);
        let cut = cut_at(self.failing.as_slice(), call);
        let fitting = bytes.len().min(self.room - self.bytes.len());
        let count = fitting.min(cut.unwrap_or(fitting));
        self.bytes.extend_from_slice(&bytes[..count]).unwrap();
        if cut.is_none() && count == bytes.len() {
            return Ok(());
        }
        self.faults = self.faults.saturating_add(1);
        Err(SinkFault)
    }
}
