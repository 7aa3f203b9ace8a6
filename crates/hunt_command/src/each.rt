//! What is printed of each run.

ghost use Rattle.std.specs.Prelude.{◌≡◌, ◌<◌, ◌+◌, ◌++◌, length, IfOk, OnOk};
ghost use Rattle.hunt_command.specs.Hunts.{end_word, race_text, told_line, is_racy, IsTold, IsToldOf, TellsRuns};
ghost use Rattle.hunt_command.specs.Words.{AreRuns};

use cell_base::line_text::put_decimal;
use cell_hunt::{Outcome, SeedRun, outcome_of, run_of_seed};
use cell_machine::{End, Setup};
use hunt_reports::put_sites;
use run_permute::is_settled;
use std::alloc::{AllocError, Global};

/// What is printed of a run.
#[derive(Clone, Copy)]
pub struct Told {
    pub run: u32,
    pub outcome: Outcome,
    /// Whether it is settled, if it has no race.
    pub settled: bool,
}

fn end_word(end: End) -> &'static [u8]
    ensures { result.now ≡ end_word end }
{
    match end {
        End::AllStopped => b"AllStopped",
        End::Stuck => b"Stuck",
        End::Budget => b"Budget",
    }
}

impl Told {
    /// What is printed of a run that was made: if it has no race, whether it is settled.
    fn of_run(alloc: Global, made: &SeedRun, run: u32) -> Result<Told, AllocError>
        ensures number { IfOk result (λ t. t.run ≡ run) }
        ensures told { IfOk result (IsToldOf made.now) }
    {
        let outcome = outcome_of(made);
        if outcome.race.is_some() {
            return Ok(Told {
                run,
                outcome,
                settled: false,
            });
        }
        let settled = match is_settled(alloc, made.machine()) {
            Ok(settled) => settled,
            Err(_) => return Err(AllocError),
        };
        Ok(Told {
            run,
            outcome,
            settled,
        })
    }

    /// Makes a run, and returns what is printed of it.
    fn new(alloc: Global, setup: &Setup, seed: u64, run: u32) -> Result<Told, AllocError>
        requires { 0 < length setup.now.entries }
        ensures { IfOk result (IsTold setup.now seed run) }
    {
        match run_of_seed(alloc, setup, seed, run) {
            Ok(made) => Told::of_run(alloc, &made, run),
            Err(_) => Err(AllocError),
        }
    }

    fn is_racy(&self) -> bool
        ensures { result ≡ is_racy self.now }
    {
        self.outcome.race.is_some()
    }

    /// Writes its race, or whether it is settled.
    fn put_race(&self, out: &mut Vec<u8>) -> Result<(), AllocError>
        ensures { OnOk result (out.new.items ≡ out.old.items ++ race_text self.now.outcome.race self.now.settled) }
    {
        match self.outcome.race {
            Some(sites) => put_sites(out, sites),
            None if self.settled => out.extend_from_slice(b", settled"),
            None => out.extend_from_slice(b", not settled"),
        }
    }

    /// Writes its line.
    fn put_line(&self, out: &mut Vec<u8>) -> Result<(), AllocError>
        ensures { OnOk result (out.new.items ≡ out.old.items ++ told_line self.now) }
    {
        out.extend_from_slice(b"run ")?;
        put_decimal(out, self.run)?;
        out.push(b' ')?;
        out.extend_from_slice(end_word(self.outcome.end))?;
        self.put_race(out)?;
        out.push(b'\n')?;
        Ok(())
    }
}

/// A line of each run, and whether one has a race.
pub fn tell_each(
    alloc: Global,
    setup: &Setup,
    seed: u64,
    from: u32,
    runs: u32,
) -> Result<(Vec<u8>, bool), AllocError>
    requires some { 0 < length setup.now.entries }
    requires within { AreRuns from runs }
    ensures { IfOk result (λ told. TellsRuns setup.now seed from runs told.0.items told.1) }
{
    let mut out = Vec::new(alloc);
    let mut is_racy = false;
    for place in 0..runs {
        let told = Told::new(alloc, setup, seed, from + place)?;
        told.put_line(&mut out)?;
        is_racy |= told.is_racy();
    }
    Ok((out, is_racy))
}
