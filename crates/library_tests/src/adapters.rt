// The adapters of cell_io in memory where memory is ample, which no contract promises, and a writer that takes a part of what it is given.

use crate::holds;
use cell_io::{FetchFault, Fetched, MemFile, MemSink, MemStore, OutSink, Sink, SinkFault, Store};
use std::io;
use std::io::Write;
use std::test::Fail;

// A fetch is whole at its limit, too long above it, and fails at the call that is told to.
#[test]
fn a_store_in_memory_answers_where_memory_is_ample(rt: HostRuntime) -> Result<(), Fail> {
    let alloc = rt.alloc();
    let mut files = Vec::new(alloc);
    files.push(MemFile {
        name: String::from_str(alloc, "abc")?,
        bytes: b"0123".to_vec(alloc)?,
    })?;
    let mut store = MemStore::new(files, [2u32].to_vec(alloc)?);
    let mut into = Vec::new(alloc);
    let whole = store.fetch(alloc, "abc", 4, &mut into);
    holds(&rt, whole == Ok(Fetched::Whole));
    holds(&rt, into.as_slice() == b"0123".as_slice());
    let long = store.fetch(alloc, "abc", 3, &mut into);
    holds(&rt, long == Ok(Fetched::TooLong));
    let failed = store.fetch(alloc, "abc", 4, &mut into);
    holds(&rt, failed == Err(FetchFault::Failed));
    Ok(())
}

// Where there is memory a sink is made, and takes what it has room for.
#[test]
fn a_sink_in_memory_is_made(rt: HostRuntime) -> Result<(), Fail> {
    let mut sink = MemSink::new(rt.alloc(), 2, Vec::new(rt.alloc()))?;
    let taken = sink.put(b"ab");
    holds(&rt, taken == Ok(()));
    holds(&rt, sink.bytes() == b"ab".as_slice());
    Ok(())
}

/// It takes at most two bytes a call, and nothing once it is full.
#[derive(Drop)]
struct Narrow {
    room: usize,
}

impl Write for Narrow {
    fn write(&mut self, bytes: &[u8]) -> io::Result<usize> {
        let count = bytes.len().min(2).min(self.room);
        self.room -= count;
        Ok(count)
    }

    fn flush(&mut self) -> io::Result<()> {
        Ok(())
    }
}

// A put goes on over short writes, fails where the writer takes no more, and then takes an empty text all the same.
#[test]
fn a_writer_that_ends_midway_is_a_fault(rt: HostRuntime) {
    let mut sink = OutSink::new(Narrow { room: 7 });
    let whole = sink.put(b"abcde");
    holds(&rt, whole == Ok(()));
    let cut = sink.put(b"fgh");
    holds(&rt, cut == Err(SinkFault));
    let empty = sink.put(b"");
    holds(&rt, empty == Ok(()));
}
