//! The kinds of runs.

ghost use Rattle.std.specs.Prelude.{◌≡◌, ◌+◌, ◌^◌, ◌<◌, ◌≤◌, [], length, OnOk, OnErr, Some, slice_get};
ghost use Rattle.hunt_tally.specs.Kinds.{runs_of, runs_with, seen_once, with_run, with_runs, with_kinds};

use indexmap::IndexMap;
use std::alloc::{AllocError, Global};
use std::marker::Model;

/// A kind of runs, by its digest, and how many runs are of it.
#[derive(Clone, Copy)]
pub struct Kind {
    pub digest: u64,
    pub runs: u32,
}

/// The kinds of runs, in the order of their first runs.
#[derive(Drop)]
pub struct Kinds {
    counts: IndexMap<u64, u32>,
}

impl Model for Kinds {
    ghost use Rattle.std.specs.Prelude.{List};
    ghost use Rattle.hunt_tally.specs.Kinds.{kinds_in};
    ghost use Rattle.hunt_tally.specs.declared.kinds.Kind.{Kind as AKind};

    ghost Value = { List AKind };

    ghost view = { λ k. kinds_in k.counts.entries };
}

impl Kinds {
    /// Before the first run.
    pub fn new(alloc: Global) -> Kinds
        ensures { result ≡ [] }
    {
        Kinds {
            counts: IndexMap::new(alloc),
        }
    }

    /// How many runs are of a kind.
    fn runs(&self, digest: u64) -> u32
        ensures { result ≡ runs_with self.now digest }
    {
        match self.counts.get(&digest) {
            Some(runs) => *runs,
            None => 0,
        }
    }

    /// Takes in so many runs of a kind. Where there is no memory for it, all stays as it was.
    fn add(&mut self, digest: u64, runs: u32) -> Result<(), AllocError>
        requires { runs_of self.old + runs < 2 ^ 32 }
        ensures taken { OnOk result (self.new ≡ with_runs self.old digest runs) }
        ensures kept { OnErr result (self.new ≡ self.old) }
        ensures runs { runs_of self.new ≤ runs_of self.old + runs }
    {
        let before = self.runs(digest);
        self.counts.insert(digest, before + runs)?;
        Ok(())
    }

    /// Takes in a run of a kind. Where there is no memory for it, all stays as it was.
    pub fn take(&mut self, digest: u64) -> Result<(), AllocError>
        requires { runs_of self.old + 1 < 2 ^ 32 }
        ensures taken { OnOk result (self.new ≡ with_run self.old digest) }
        ensures kept { OnErr result (self.new ≡ self.old) }
        ensures runs { runs_of self.new ≤ runs_of self.old + 1 }
    {
        self.add(digest, 1)
    }

    /// Takes in the kinds of other runs. Where there is no memory for all, the first of them are taken in.
    pub fn join(&mut self, other: Kinds) -> Result<(), AllocError>
        requires { runs_of self.old + runs_of other < 2 ^ 32 }
        ensures taken { OnOk result (self.new ≡ with_kinds self.old other) }
        ensures runs { runs_of self.new ≤ runs_of self.old + runs_of other }
    {
        for (digest, runs) in other.counts {
            self.add(digest, runs)?;
        }
        Ok(())
    }

    /// How many kinds there are.
    pub fn len(&self) -> usize
        ensures { result ≡ length self.now }
    {
        self.counts.len()
    }

    /// The kind at a place.
    pub fn get(&self, place: usize) -> Kind
        requires { place < length self.now }
        ensures { slice_get self.now place ≡ Some result }
    {
        let Some((digest, runs)) = self.counts.get_index(place) else {
            unreachable!()
        };
        Kind {
            digest: *digest,
            runs: *runs,
        }
    }

    /// How many kinds one run alone is of.
    pub fn seen_once(&self) -> usize
        ensures { result ≡ seen_once self.now }
    {
        let mut once = 0;
        for place in 0..self.counts.len() {
            if self.get(place).runs == 1 {
                once += 1;
            }
        }
        once
    }
}
