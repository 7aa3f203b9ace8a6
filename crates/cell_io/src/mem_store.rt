// Files in memory.
ghost use Rattle.std.specs.Prelude.{◌≡◌, ◌≢◌, ◌==◌, Some, None, Err};
ghost use Rattle.std.specs.List.{list_any};
ghost use Rattle.std.specs.Io.{StartsWith};
ghost use Rattle.std.specs.Option.{ForSome};
ghost use Rattle.cell_io.specs.Files.{HasDifferentNames};
ghost use Rattle.cell_io.specs.Store.{AddsOf, Bounded, HasCause, NoneFell};
ghost use Rattle.cell_io.specs.Memory.{answer_of, ledger_of, IsOneCall};

use crate::mem_file::find_file;
use crate::{FetchFault, Fetched, MemFile, Store};
use std::alloc::Global;
use std::marker::Model;

/// A list of files with different names, and the numbers of the calls that fail, from 0.
#[derive(Drop)]
pub struct MemStore {
    files: Vec<MemFile>,
    failing: Vec<u32>,
    calls: u64,
    faults: u64,
    failed: Option<String>,
    short: u64,
}

impl Model for MemStore {
    ghost use Rattle.cell_io.specs.Memory.{Shelf};
    ghost use Rattle.cell_io.specs.Files.{HasDifferentNames};
    ghost use Rattle.std.specs.Prelude.{string_bytes};
    ghost use Rattle.std.specs.Option.{option_map};

    ghost Value = { Shelf };

    ghost view = { λ s. record { files = s.files.items; failing = s.failing.items; calls = s.calls; faults = s.faults; failed = option_map string_bytes s.failed; short = s.short } };

    ghost invariant = { λ s. HasDifferentNames s.files.items };
}

impl MemStore {
    ghost use Rattle.cell_io.specs.Memory.{Shelf};
    ghost use Rattle.cell_io.specs.Files.{HasDifferentNames};

    /// A store of these files, of which the calls of these numbers fail. It takes no memory.
    pub fn new(files: Vec<MemFile>, failing: Vec<u32>) -> MemStore
        requires { HasDifferentNames files.items }
        ensures { result ≡ record { files = files.items; failing = failing.items; calls = 0; faults = 0; failed = None; short = 0 } }
    {
        MemStore {
            files,
            failing,
            calls: 0,
            faults: 0,
            failed: None,
            short: 0,
        }
    }
}

/// Whether the call of this number is told to fail.
fn is_failing(failing: &[u32], call: u64) -> bool
    ensures { result ≡ list_any (λ n. n == call) failing.now }
{
    failing.iter().any(|n| u64::from(*n) == call)
}

impl Store for MemStore {
    ghost files = { λ s. Some s.files };

    ghost ledger = { ledger_of };

    #[tactic(auto, using(crate::proofs::FetchLemmas::adds_nothing, crate::proofs::FetchLemmas::answers_whole, crate::proofs::FetchLemmas::answers_too_long))]
    fn fetch(
        &mut self,
        alloc: Global,
        name: &str,
        limit: usize,
        into: &mut Vec<u8>,
    ) -> Result<Fetched, FetchFault>
        ensures different { ForSome (Some self.old.files) HasDifferentNames }
        ensures same { Some self.new.files ≡ Some self.old.files }
        ensures adds { AddsOf (Some self.old.files) name.now limit into.old.items into.new.items result }
        ensures front { StartsWith into.new.items into.old.items }
        ensures bound { Bounded limit into.old.items into.new.items result }
        ensures cause { HasCause name.now (ledger_of self.old) (ledger_of self.new) result }
        ensures count { NoneFell (ledger_of self.old) (ledger_of self.new) }

        // Want of memory is the one free answer.
        ensures answer { result ≢ Err FetchFault.Memory → result ≡ answer_of self.old name.now limit }
        ensures call { IsOneCall self.old self.new }
    {
        let call = self.calls;
        self.calls = call.saturating_add(1);
        let Ok(kept) = String::from_str(alloc, name) else {
            self.short = self.short.saturating_add(1);
            return Err(FetchFault::Memory);
        };
        let fails = is_failing(self.failing.as_slice(), call);
        match find_file(self.files.as_slice(), name) {
            Some(bytes) if !fails => {
                if bytes.len() > limit {
                    return Ok(Fetched::TooLong);
                }
                if into.extend_from_slice(bytes).is_err() {
                    self.short = self.short.saturating_add(1);
                    return Err(FetchFault::Memory);
                }
                Ok(Fetched::Whole)
            }
            _ => {
                self.faults = self.faults.saturating_add(1);
                self.failed = Some(kept);
                Err(FetchFault::Failed)
            }
        }
    }
}
