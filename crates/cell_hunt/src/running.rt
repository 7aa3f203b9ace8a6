//! Runs by the choices of a seed.

ghost use Rattle.std.specs.Prelude.{◌≡◌, ◌<◌, [], length, Some, IfOk, OnOk};
ghost use Rattle.cell_machine.specs.Run.{Ran, EndsAs};
ghost use Rattle.lost_values.specs.Losses.{AreAllLosses};
ghost use Rattle.unwritten_reads.specs.Reads.{AreAllUnwritten};
ghost use Rattle.race_check.specs.declared.check.Verdict.{Verdict as AVerdict};
ghost use Rattle.race_check.specs.Races.{IsVerdict};
ghost use Rattle.cell_hunt.specs.Endings.{AreAllEndings};
ghost use Rattle.cell_hunt.specs.Ends.{IsOver};
ghost use Rattle.cell_hunt.specs.Executed.{executed_in};
ghost use Rattle.cell_hunt.specs.Outcomes.{TellsRace};
ghost use Rattle.cell_hunt.specs.SoFar.{IsSearchedTo, made_by};
ghost use Rattle.cell_hunt.specs.Racings.{AreAllRaces};
ghost use Rattle.cell_hunt.specs.Runs.{IsRunOfSeed};
ghost use Rattle.cell_hunt.specs.Sites.{IsSite};
ghost use Rattle.cell_hunt.specs.Goings.{Goes};
ghost use Rattle.cell_hunt.specs.Kinds.{kind_of};

use crate::chooser::Chooser;
use crate::ending::Ended;
use crate::error::HuntError;
use crate::executed::Executed;
use crate::origins::Origins;
use crate::racing::Racing;
use crate::site::{Site, Sites};
use crate::so_far::SoFar;
use cell_machine::{End, Machine, Setup};
use lost_values::Loss;
use std::alloc::Global;
use std::marker::Model;
use unwritten_reads::Unwritten;

/// A run of a seed, to its end or to the end of its budget, that was searched for races. To a contract it is the run.
#[derive(Drop)]
pub struct SeedRun {
    machine: Machine,
    least: Option<Racing>,
    races: Vec<Racing>,
    endings: Vec<Ended>,
    executed: Vec<Executed>,
    losses: Vec<Loss>,
    unwritten_reads: Vec<Unwritten>,
    origins: Origins,
    kind: u64,
}

impl Model for SeedRun {
    ghost use Rattle.cell_machine.specs.Run.{Ran};
    ghost use Rattle.cell_hunt.specs.Racings.{IsSearched};

    ghost Value = { Ran };

    ghost view = { λ r. r.machine };

    ghost use Rattle.std.specs.Prelude.{◌≡◌};
    ghost use Rattle.cell_hunt.specs.Endings.{AreAllEndings};
    ghost use Rattle.cell_hunt.specs.Executed.{executed_in};
    ghost use Rattle.cell_hunt.specs.Kinds.{kind_of};
    ghost use Rattle.cell_hunt.specs.Origins.{Knows};
    ghost use Rattle.lost_values.specs.Losses.{AreAllLosses};
    ghost use Rattle.unwritten_reads.specs.Reads.{AreAllUnwritten};

    ghost invariant = { λ r. IsSearched r.machine r.least r.races.items × (r.kind ≡ kind_of r.machine) × AreAllEndings r.machine r.endings.items × (r.executed.items ≡ executed_in r.machine) × AreAllLosses r.machine r.losses.items × AreAllUnwritten r.machine r.unwritten_reads.items × Knows r.machine r.origins };
}

impl SeedRun {
    /// The machine, which has made the run.
    pub fn machine(&self) -> &Machine
        ensures run { result.now ≡ self.now }
        ensures over { IsOver self.now }
    {
        &self.machine
    }

    /// How it has ended.
    pub fn end(&self) -> End
        ensures { EndsAs self.now (Some result) }
    {
        let Some(end) = self.machine.end() else {
            unreachable!()
        };
        end
    }

    /// Where the two steps of its least race come from, None exactly where it has no race.
    pub fn race(&self) -> Option<Sites>
        ensures { (verdict : AVerdict) × IsVerdict self.now verdict × TellsRace self.now verdict result }
    {
        Some(self.least?.sites)
    }

    /// Of each step that races with an earlier one the latest that does, in the order of these steps.
    pub fn races(&self) -> &[Racing]
        ensures { AreAllRaces self.now result.now }
    {
        self.races.as_slice()
    }

    /// The steps with which its processors end, in their order.
    pub fn endings(&self) -> &[Ended]
        ensures { AreAllEndings self.now result.now }
    {
        self.endings.as_slice()
    }

    /// The instructions that its processors executed, one for each step that executes one, in the order of the steps.
    pub fn executed(&self) -> &[Executed]
        ensures { result.now ≡ executed_in self.now }
    {
        self.executed.as_slice()
    }

    /// The values that it loses: each of them is replaced before a step reads it, or is the status of a failed PUTLLC that is unread at its end.
    pub fn losses(&self) -> &[Loss]
        ensures { AreAllLosses self.now result.now }
    {
        self.losses.as_slice()
    }

    /// Its unwritten reads, in their order: steps that read bytes of a local store that the machine file didn't place and that no earlier step
    /// wrote or read. A load is one only if that is so of all 16 bytes.
    pub fn unwritten_reads(&self) -> &[Unwritten]
        ensures { AreAllUnwritten self.now result.now }
    {
        self.unwritten_reads.as_slice()
    }

    /// The site of its step at a place, counted from 0.
    pub fn site(&self, place: u32) -> Site
        requires { place < length self.now.steps }
        ensures { IsSite self.now place result }
    {
        self.origins.site(&self.machine, place)
    }

    /// The digest of its kind.
    pub fn kind(&self) -> u64
        ensures { result ≡ kind_of self.now }
    {
        self.kind
    }
}

/// Makes the steps that are chosen, until the run is over.
fn make_all(so_far: &mut SoFar, chooser: &mut Chooser) -> Result<(), HuntError>
    requires searched { IsSearchedTo 0 so_far.old }
    requires begun { (made_by so_far.old).steps ≡ [] }
    ensures goes { OnOk result (Goes chooser.old (made_by so_far.old) (made_by so_far.new)) }
    ensures over { OnOk result (IsOver (made_by so_far.new)) }
    ensures searched { OnOk result (IsSearchedTo (length (made_by so_far.new).steps) so_far.new) }
{
    for place in 0..so_far.search.machine().setup().budget() {
        let machine = so_far.search.machine();
        let Some(step) = chooser.next(machine, place) else {
            return Ok(());
        };
        let effect = machine.allowed_effect(step);
        so_far.advance(step, &effect, place)?;
    }
    Ok(())
}

/// Run `run` of a seed, to its end or to the end of its budget, searched for races all along: the same for the same setup, seed and
/// number. Want of memory is the only refusal.
pub fn run_of_seed(alloc: Global, setup: &Setup, seed: u64, run: u32) -> Result<SeedRun, HuntError>
    requires { 0 < length setup.now.entries }
    ensures run { IfOk result (IsRunOfSeed setup.now seed run) }
    ensures over { IfOk result IsOver }
    ensures only { IfOk result (λ m. (n : Ran) → IsRunOfSeed setup.now seed run n → n ≡ m) }
{
    let mut chooser = Chooser::new(seed, run);
    let mut so_far = SoFar::new(alloc, setup)?;
    make_all(&mut so_far, &mut chooser)?;
    let kind = so_far.touched.kind();
    let executed = so_far.touched.into_executed();
    let losses = so_far.losses.finish()?;
    let unwritten_reads = so_far.unwritten_reads.finish();
    Ok(SeedRun {
        machine: so_far.search.into_machine(),
        least: so_far.least,
        races: so_far.races,
        endings: so_far.endings,
        executed,
        losses,
        unwritten_reads,
        origins: so_far.origins,
        kind,
    })
}
