//! The files of a question, as a store.

ghost use Rattle.std.specs.Prelude.{◌≡◌, [], Some};
ghost use Rattle.cell_io.specs.Files.{HasDifferentNames};
ghost use Rattle.cell_io.specs.Memory.{ledger_of};
ghost use Rattle.cell_io.specs.Store.{clean};
ghost use Rattle.cell_library.specs.Missing.{IsMissing};

use cell_io::{FetchFault, Fetched, MemFile, MemStore, Store};
use std::alloc::Global;

/// Files of which a fetch fails only where none has its name, or memory is short.
#[derive(Drop)]
pub struct GivenFiles {
    shelf: MemStore,
    ghost kept: { shelf.failing ≡ [] },
    ghost missing: { IsMissing shelf.files shelf.failed },
}

impl GivenFiles {
    /// These files, before the first fetch.
    pub fn new(alloc: Global, files: Vec<MemFile>) -> GivenFiles
        requires { HasDifferentNames files.items }
        ensures files { result.shelf.files ≡ files.items }
        ensures ledger { ledger_of result.shelf ≡ clean }
    {
        GivenFiles {
            shelf: MemStore::new(files, Vec::new(alloc)),
        }
    }
}

impl Store for GivenFiles {
    ghost files = { λ s. Some s.shelf.files };

    ghost ledger = { λ s. ledger_of s.shelf };

    fn fetch(
        &mut self,
        alloc: Global,
        name: &str,
        limit: usize,
        into: &mut Vec<u8>,
    ) -> Result<Fetched, FetchFault> {
        self.shelf.fetch(alloc, name, limit, into)
    }
}
