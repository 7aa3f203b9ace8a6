//! What is kept of a run while it is made again.

ghost use Rattle.std.specs.Prelude.{◌≡◌, ℕ, ◌+◌, ◌<◌, ◌^◌, [], ◌∷◌, ◌++◌, length, map, List, OnOk, IfOk};
ghost use Rattle.std.specs.List.{range_with_len};
ghost use Rattle.cell_machine.specs.Run.{Ran};
ghost use Rattle.run_progress.specs.Made.{Made, made_of};
ghost use Rattle.run_progress.specs.Progress.{last_change, poll_of, spe_progress};
ghost use Rattle.run_progress.specs.Repeats.{IsOf};
ghost use Rattle.run_progress.specs.Tracks.{AreWrites, Follows};

use crate::progress::{Poll, Progress, SpeProgress};
use crate::recent::Recent;
use crate::repeat::Repeated;
use crate::writes::Write;
use crate::{reads, recent, recents, writes};
use cell_machine::{Machine, Span};
use std::alloc::{AllocError, Global};

/// What is kept of a run.
#[derive(Drop)]
pub struct Tracks {
    last_change: u32,
    recent: Vec<Recent>,
    reads: Vec<Option<Span>>,
    writes: Vec<Write>,
}

/// The poll of the bytes that were read.
fn poll_of(writes: &[Write], read: Span) -> Poll
    ghost run: { List Made }
    requires { AreWrites run writes.now }
    ensures { result ≡ poll_of run read }
{
    Poll {
        at: read.at,
        len: read.len,
        writer: writes::writer_of(writes, read),
    }
}

impl Tracks {
    /// Before the first step of a run of so many processors.
    pub fn new(alloc: Global, spes: u8) -> Result<Tracks, AllocError>
        ensures { IfOk result (Follows spes []) }
    {
        let recent = recents::no_recent(alloc, spes)?;
        let reads = reads::no_reads(alloc, spes)?;
        Ok(Tracks {
            last_change: 0,
            recent,
            reads,
            writes: Vec::new(alloc),
        })
    }

    /// Takes the next step of the run, which has this place.
    pub fn follow(&mut self, place: u32, repeated: &Repeated) -> Result<(), AllocError>
        requires { place + 1 < 2 ^ 32 }
        ensures { OnOk result ((spes : ℕ) (run : List Made) (made : Made) → IsOf made repeated.now → place ≡ length run → Follows spes run self.old → Follows spes (run ++ made ∷ []) self.new) }
    {
        recents::add_step(self.recent.as_mut_slice(), repeated)?;
        reads::add_step(self.reads.as_mut_slice(), repeated);
        writes::add_step(&mut self.writes, place, repeated)?;
        if repeated.changes {
            self.last_change = place + 1;
        }
        Ok(())
    }

    /// The progress of a processor.
    fn spe_progress(&self, spe: usize) -> SpeProgress
        ghost m: { Ran }
        requires spe { spe < length m.setup.entries }
        requires follows { Follows (length m.setup.entries) (made_of m) self.now }
        ensures { result ≡ spe_progress (made_of m) spe }
    {
        let polled = match self.reads[spe] {
            Some(read) => Some(poll_of(self.writes.as_slice(), read)),
            None => None,
        };
        SpeProgress {
            executed: self.recent[spe].range(),
            polled,
        }
    }

    /// The progress of the run that the machine has made.
    pub fn progress(&self, alloc: Global, machine: &Machine) -> Result<Progress, AllocError>
        ghost m: { Ran }
        requires run { machine.now ≡ m }
        requires follows { Follows (length m.setup.entries) (made_of m) self.now }
        ensures change { IfOk result (λ r. r.last_change ≡ last_change (made_of m)) }
        ensures spes { IfOk result (λ r. r.spes.items ≡ map (spe_progress (made_of m)) (range_with_len 0 (length m.setup.entries))) }
    {
        let mut spes = Vec::new(alloc);
        for spe in 0..usize::from(machine.setup().spes()) {
            spes.push(self.spe_progress(spe))?;
        }
        Ok(Progress {
            last_change: self.last_change,
            spes,
        })
    }
}
