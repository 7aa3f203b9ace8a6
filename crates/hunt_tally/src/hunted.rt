//! What the runs of a hunt tell together.

ghost use Rattle.std.specs.Prelude.{◌≡◌, ◌+◌, ◌^◌, ◌<◌, ◌≤◌, if◌then◌else◌, map, List, [], ◌∷◌, ◌++◌, OnOk};
ghost use Rattle.std.specs.List.{list_any};
ghost use Rattle.cell_base.specs.Records.{line_feed};
ghost use Rattle.hunt_tally.specs.Tallies.{Took};
ghost use Rattle.hunt_tally.specs.Joins.{Joined};
ghost use Rattle.hunt_tally.specs.Reports.{Reported, is_flawed, is_warned, line_told, hunted};

use crate::executed::Executed;
use crate::flaws::FlawCounts;
use crate::kinds::Kinds;
use crate::report::Report;
use crate::tally::Tally;
use crate::telling::Telling;
use crate::tellings::{ending_told, missed_told, result_told};
use std::alloc::{AllocError, Global};
use std::marker::Model;

/// What runs tell together.
#[derive(Drop)]
pub struct Hunted {
    /// How many were taken in, how many ended with all processors stopped, and of how many a race was left out.
    runs: u32,
    all_stopped: u32,
    left_out: u32,
    /// How many steps all of them have.
    steps: u64,
    flaws: FlawCounts,
    kinds: Kinds,
    /// The different endings, results within an ending, races, expected lines that aren't there, findings, and warnings.
    endings: Tally,
    results: Tally,
    races: Tally,
    missed: Tally,
    findings: Tally,
    warnings: Tally,
    /// The instructions that at least one of them executed.
    executed: Executed,
}

impl Model for Hunted {
    ghost use Rattle.hunt_tally.specs.Reports.{Sums};
    ghost use Rattle.hunt_tally.specs.Bounds.{IsWithin};

    ghost Value = { Sums };

    ghost view = { λ h. record { runs = h.runs; all_stopped = h.all_stopped; left_out = h.left_out; steps = h.steps; flaws = h.flaws; kinds = h.kinds; endings = h.endings; results = h.results; races = h.races; missed = h.missed; findings = h.findings; warnings = h.warnings; executed = h.executed } };

    ghost invariant = { λ h. IsWithin (record { runs = h.runs; all_stopped = h.all_stopped; left_out = h.left_out; steps = h.steps; flaws = h.flaws; kinds = h.kinds; endings = h.endings; results = h.results; races = h.races; missed = h.missed; findings = h.findings; warnings = h.warnings; executed = h.executed }) };
}

/// One more, where it is so.
fn counted(runs: u32, is_so: bool) -> u32
    requires { runs + 1 < 2 ^ 32 }
    ensures { result ≡ runs + (if is_so then 1 else 0) }
{
    if is_so { runs + 1 } else { runs }
}

/// Takes in how a run ended, and what it left.
fn take_ending(
    endings: &mut Tally,
    results: &mut Tally,
    alloc: Global,
    ending: Vec<u8>,
    left: Vec<u8>,
) -> Result<(), AllocError>
    requires endings { endings.old.runs + 2 < 2 ^ 32 }
    requires results { results.old.runs + 2 < 2 ^ 32 }
    ensures endings { endings.new.runs ≤ endings.old.runs + 1 }
    ensures results { results.new.runs ≤ results.old.runs + 1 }
    ensures ending { OnOk result (Took (record { key = ending.items; shown = [] } ∷ []) endings.old endings.new) }
    ensures left { OnOk result (Took (record { key = ending.items ++ line_feed ++ left.items; shown = ending.items } ∷ []) results.old results.new) }
{
    endings.take(ending_told(alloc, ending.as_slice())?)?;
    results.take(result_told(alloc, ending, left.as_slice())?)
}

/// Takes in the lines that a run misses.
fn take_missed(tally: &mut Tally, alloc: Global, missed: Vec<Vec<u8>>) -> Result<(), AllocError>
    requires { tally.old.runs + 2 < 2 ^ 32 }
    ensures runs { tally.new.runs ≤ tally.old.runs + 1 }
    ensures missed { OnOk result (Took (map line_told (map (λ line. line.items) missed.items)) tally.old tally.new) }
{
    tally.take(missed_told(alloc, missed)?)
}

/// Takes in the races, the findings and the warnings of a run.
fn take_found(
    races: &mut Tally,
    findings: &mut Tally,
    warnings: &mut Tally,
    run_races: Vec<Telling>,
    run_findings: Vec<Telling>,
    run_warnings: Vec<Telling>,
) -> Result<(), AllocError>
    requires races { races.old.runs + 2 < 2 ^ 32 }
    requires findings { findings.old.runs + 2 < 2 ^ 32 }
    requires warnings { warnings.old.runs + 2 < 2 ^ 32 }
    ensures races { races.new.runs ≤ races.old.runs + 1 }
    ensures findings { findings.new.runs ≤ findings.old.runs + 1 }
    ensures warnings { warnings.new.runs ≤ warnings.old.runs + 1 }
    ensures took_races { OnOk result (Took run_races.items races.old races.new) }
    ensures took_findings { OnOk result (Took run_findings.items findings.old findings.new) }
    ensures took_warnings { OnOk result (Took run_warnings.items warnings.old warnings.new) }
{
    races.take(run_races)?;
    findings.take(run_findings)?;
    warnings.take(run_warnings)
}

/// Takes in how the runs behind these ended, and what they left.
fn join_endings(
    endings: &mut Tally,
    results: &mut Tally,
    alloc: Global,
    other_endings: Tally,
    other_results: Tally,
) -> Result<(), AllocError>
    requires endings { endings.old.runs + other_endings.runs < 2 ^ 32 }
    requires results { results.old.runs + other_results.runs < 2 ^ 32 }
    ensures endings { endings.new.runs ≤ endings.old.runs + other_endings.runs }
    ensures results { results.new.runs ≤ results.old.runs + other_results.runs }
    ensures joined_endings { OnOk result (Joined endings.old other_endings endings.new) }
    ensures joined_results { OnOk result (Joined results.old other_results results.new) }
{
    endings.join(alloc, other_endings)?;
    results.join(alloc, other_results)
}

/// Takes in the races, the findings and the warnings of the runs behind these.
fn join_found(
    races: &mut Tally,
    findings: &mut Tally,
    warnings: &mut Tally,
    alloc: Global,
    other_races: Tally,
    other_findings: Tally,
    other_warnings: Tally,
) -> Result<(), AllocError>
    requires races { races.old.runs + other_races.runs < 2 ^ 32 }
    requires findings { findings.old.runs + other_findings.runs < 2 ^ 32 }
    requires warnings { warnings.old.runs + other_warnings.runs < 2 ^ 32 }
    ensures races { races.new.runs ≤ races.old.runs + other_races.runs }
    ensures findings { findings.new.runs ≤ findings.old.runs + other_findings.runs }
    ensures warnings { warnings.new.runs ≤ warnings.old.runs + other_warnings.runs }
    ensures joined_races { OnOk result (Joined races.old other_races races.new) }
    ensures joined_findings { OnOk result (Joined findings.old other_findings findings.new) }
    ensures joined_warnings { OnOk result (Joined warnings.old other_warnings warnings.new) }
{
    races.join(alloc, other_races)?;
    findings.join(alloc, other_findings)?;
    warnings.join(alloc, other_warnings)
}

impl Hunted {
    /// Before the first run.
    pub fn new(alloc: Global) -> Hunted
        ensures { result ≡ hunted [] }
    {
        Hunted {
            runs: 0,
            all_stopped: 0,
            left_out: 0,
            steps: 0,
            flaws: FlawCounts::new(),
            kinds: Kinds::new(alloc),
            endings: Tally::new(alloc),
            results: Tally::new(alloc),
            races: Tally::new(alloc),
            missed: Tally::new(alloc),
            findings: Tally::new(alloc),
            warnings: Tally::new(alloc),
            executed: Executed::new(alloc),
        }
    }

    /// Takes in the report of the next run. After want of memory nothing is known of what was taken in.
    pub fn take(&mut self, alloc: Global, report: Report) -> Result<(), AllocError>
        requires { self.old.runs + 2 < 2 ^ 32 }
        ensures { OnOk result ((reports : List Reported) → self.old ≡ hunted reports → self.new ≡ hunted (reports ++ report ∷ [])) }
    {
        let Report {
            flaws,
            ending,
            result,
            races,
            missed,
            findings,
            warnings,
            leaves_out,
            kind,
            steps,
            executed,
        } = report;
        let run = self.runs;
        self.runs = run + 1;
        self.flaws.note(run, flaws);
        self.all_stopped = counted(self.all_stopped, flaws.all_stopped());
        self.left_out = counted(self.left_out, leaves_out);
        self.steps += u64::from(steps);
        self.kinds.take(kind)?;
        take_ending(&mut self.endings, &mut self.results, alloc, ending, result)?;
        take_found(
            &mut self.races,
            &mut self.findings,
            &mut self.warnings,
            races,
            findings,
            warnings,
        )?;
        take_missed(&mut self.missed, alloc, missed)?;
        self.executed.take(executed.as_slice())
    }

    /// Takes in what the runs behind these told. After want of memory nothing is known of what was taken in.
    pub fn join(&mut self, alloc: Global, other: Hunted) -> Result<(), AllocError>
        requires { self.old.runs + other.runs < 2 ^ 32 }
        ensures runs { self.new.runs ≡ self.old.runs + other.runs }
        ensures joined { OnOk result ((before behind : List Reported) → self.old ≡ hunted before → other ≡ hunted behind → self.new ≡ hunted (before ++ behind)) }
    {
        let Hunted {
            runs,
            all_stopped,
            left_out,
            steps,
            flaws,
            kinds,
            endings,
            results,
            races,
            missed,
            findings,
            warnings,
            executed,
        } = other;
        self.flaws.join(self.runs, flaws);
        self.runs += runs;
        self.all_stopped += all_stopped;
        self.left_out += left_out;
        self.steps += steps;
        self.kinds.join(kinds)?;
        join_endings(
            &mut self.endings,
            &mut self.results,
            alloc,
            endings,
            results,
        )?;
        join_found(
            &mut self.races,
            &mut self.findings,
            &mut self.warnings,
            alloc,
            races,
            findings,
            warnings,
        )?;
        self.missed.join(alloc, missed)?;
        self.executed.join(executed)
    }

    /// How many were taken in.
    pub fn runs(&self) -> u32
        ensures { result ≡ self.now.runs }
    {
        self.runs
    }

    /// How many ended with all processors stopped.
    pub fn all_stopped(&self) -> u32
        ensures { result ≡ self.now.all_stopped }
    {
        self.all_stopped
    }

    /// Of how many a race was left out.
    pub fn left_out(&self) -> u32
        ensures { result ≡ self.now.left_out }
    {
        self.left_out
    }

    /// How many steps all of them have.
    pub fn steps(&self) -> u64
        ensures { result ≡ self.now.steps }
    {
        self.steps
    }

    /// How many have each flaw.
    pub fn flaws(&self) -> FlawCounts
        ensures { result ≡ self.now.flaws }
    {
        self.flaws
    }

    /// Whether something went wrong in one.
    pub fn has_flaw(&self) -> bool
        ensures { (reports : List Reported) → self.now ≡ hunted reports → result ≡ list_any is_flawed reports }
    {
        self.flaws.is_some()
    }

    /// Of which kinds they are.
    pub fn kinds(&self) -> &Kinds
        ensures { result.now ≡ self.now.kinds }
    {
        &self.kinds
    }

    /// The different endings.
    pub fn endings(&self) -> &Tally
        ensures { result.now ≡ self.now.endings }
    {
        &self.endings
    }

    /// The different results within an ending.
    pub fn results(&self) -> &Tally
        ensures { result.now ≡ self.now.results }
    {
        &self.results
    }

    /// The different races.
    pub fn races(&self) -> &Tally
        ensures { result.now ≡ self.now.races }
    {
        &self.races
    }

    /// The expected lines that aren't there.
    pub fn missed(&self) -> &Tally
        ensures { result.now ≡ self.now.missed }
    {
        &self.missed
    }

    /// The different findings.
    pub fn findings(&self) -> &Tally
        ensures { result.now ≡ self.now.findings }
    {
        &self.findings
    }

    /// The different warnings.
    pub fn warnings(&self) -> &Tally
        ensures { result.now ≡ self.now.warnings }
    {
        &self.warnings
    }

    /// Whether one has a warning.
    pub fn has_warning(&self) -> bool
        ensures { (reports : List Reported) → self.now ≡ hunted reports → result ≡ list_any is_warned reports }
    {
        self.warnings.len() > 0
    }

    /// The instructions that at least one of them executed.
    pub fn executed(&self) -> &Executed
        ensures { result.now ≡ self.now.executed }
    {
        &self.executed
    }
}
