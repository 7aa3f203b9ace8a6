//! Making the steps of a record again, and judging their run as it is made.

ghost use Rattle.std.specs.Prelude.{◌≡◌, ◌∷◌, ◌++◌, ◌<◌, ◌≤◌, [], IfErr, IfOk, OnOk, Some, is_some, length, take};
ghost use Rattle.cell_machine.specs.Effects.{effect_in};
ghost use Rattle.cell_machine.specs.Run.{IsRun};
ghost use Rattle.race_check.specs.Races.{IsVerdict};
ghost use Rattle.race_check.specs.Searches.{IsClear, run_of};
ghost use Rattle.cell_commands.specs.Judging.{MayLookAt, IsJudged, IsSearched, StopsOrMemory};

use crate::fault::Fault;
use crate::looks::Looks;
use cell_base::Step;
use cell_machine::{Effect, Machine, Setup};
use race_check::{Search, Verdict};
use run_record::{RefusedStep, make_steps};
use std::alloc::Global;

/// A run that was made again, and the verdict on it; where it is to be reordered, what was looked at, which is of the whole run where that has no race.
#[derive(Drop)]
pub struct Judged {
    pub machine: Machine,
    pub verdict: Verdict,
    pub looks: Option<Looks>,
}

/// Before the first step of a run, which is to be reordered or not.
fn no_looks(
    alloc: Global,
    setup: &Setup,
    room: usize,
    reorders: bool,
) -> Result<Option<Looks>, Fault>
    ensures looks { IfOk result (MayLookAt (record { setup = setup.now; steps = [] })) }
    ensures some { IfOk result (λ looks. is_some looks ≡ reorders) }
    ensures refused { IfErr result (λ fault. fault ≡ Fault.Memory) }
{
    if !reorders {
        return Ok(None);
    }
    match Looks::new(alloc, setup, room) {
        Ok(looks) => Ok(Some(looks)),
        Err(_) => Err(Fault::Memory),
    }
}

/// Makes the next step of the search, which stands at this place.
fn go_on(
    search: &mut Search,
    looks: &mut Option<Looks>,
    place: u32,
    step: Step,
    effect: &Effect,
) -> Result<Verdict, Fault>
    requires looks { MayLookAt (run_of search.old) looks.old }
    requires clear { IsClear search.old }
    requires effect { effect_in (run_of search.old) step ≡ Some effect.now }
    requires place { place ≡ length (run_of search.old).steps }
    ensures run { IfOk result (λ _. run_of search.new ≡ record (run_of search.old) { steps = (run_of search.old).steps ++ step ∷ [] }) }
    ensures verdict { IfOk result (IsVerdict (run_of search.new)) }
    ensures clear { IfOk result (λ v. v ≡ Verdict.Accepted → IsClear search.new) }
    ensures looks { IfOk result (λ v. v ≡ Verdict.Accepted → MayLookAt (run_of search.new) looks.new) }
    ensures some { OnOk result (is_some looks.new ≡ is_some looks.old) }
    ensures refused { IfErr result (λ fault. fault ≡ Fault.Memory) }
{
    match looks {
        Some(looks) => match looks.advance(search, place, step, effect) {
            Ok(verdict) => Ok(verdict),
            Err(_) => Err(Fault::Memory),
        },
        None => match search.advance(step, effect) {
            Ok(verdict) => Ok(verdict),
            Err(_) => Err(Fault::Memory),
        },
    }
}

/// Makes the steps one by one, until one races with an earlier one.
fn search_steps(
    search: &mut Search,
    looks: &mut Option<Looks>,
    steps: &[Step],
) -> Result<Verdict, Fault>
    requires begun { (run_of search.old).steps ≡ [] }
    requires clear { IsClear search.old }
    requires looks { MayLookAt (run_of search.old) looks.old }
    ensures searched { IfOk result (IsSearched (run_of search.old).setup steps.now search.new) }
    ensures looks { IfOk result (λ v. v ≡ Verdict.Accepted → MayLookAt (run_of search.new) looks.new) }
    ensures some { OnOk result (is_some looks.new ≡ is_some looks.old) }
    ensures refused { IfErr result (StopsOrMemory (run_of search.old).setup steps.now) }
{
    for step in steps {
        let place = search.machine().steps().len() as u32;
        let Some(effect) = search.machine().effect(*step) else {
            return Err(Fault::NotARun { at: place });
        };
        let verdict = go_on(search, looks, place, *step, &effect)?;
        if let Verdict::Race { .. } = verdict {
            return Ok(verdict);
        }
    }
    Ok(Verdict::Accepted)
}

/// Makes the steps behind those that the machine has made.
fn make_rest(machine: &mut Machine, steps: &[Step]) -> Result<(), Fault>
    requires made { machine.old.steps ≡ take (length machine.old.steps) steps.now }
    requires within { length machine.old.steps ≤ length steps.now }
    ensures made { IfOk result (λ _. machine.new ≡ record machine.old { steps = steps.now }) }
    ensures refused { IfErr result (StopsOrMemory machine.old.setup steps.now) }
{
    let made = machine.steps().len();
    match make_steps(machine, &steps[made..]) {
        Ok(()) => Ok(()),
        Err(RefusedStep { at }) => Err(Fault::NotARun { at }),
    }
}

/// Makes the steps on a machine of this setup, and judges their run: each step is made once.
pub fn judge(alloc: Global, setup: &Setup, steps: &[Step], reorders: bool) -> Result<Judged, Fault>
    requires { 0 < length setup.now.entries }
    ensures run { IfOk result (λ judged. IsRun setup.now steps.now × (judged.machine ≡ record { setup = setup.now; steps = steps.now })) }
    ensures judged { IfOk result (IsJudged reorders) }
    ensures refused { IfErr result (StopsOrMemory setup.now steps.now) }
{
    let Ok(mut search) = Search::new(alloc, setup, steps.len()) else {
        return Err(Fault::Memory);
    };
    let mut looks = no_looks(alloc, setup, steps.len(), reorders)?;
    let verdict = search_steps(&mut search, &mut looks, steps)?;
    let mut machine = search.into_machine();
    make_rest(&mut machine, steps)?;
    let _run = machine.steps(); // which are a run, as its contract says
    Ok(Judged {
        machine,
        verdict,
        looks,
    })
}
