//! The progress of a run.

ghost use Rattle.std.specs.Prelude.{◌≡◌, [], map, length, Some, OnOk, IfOk};
ghost use Rattle.std.specs.List.{range_with_len};
ghost use Rattle.cell_machine.specs.Limits.{IsOpening};
ghost use Rattle.cell_machine.specs.Traces.{trace_of};
ghost use Rattle.run_progress.specs.Made.{event_of, made_of};
ghost use Rattle.run_progress.specs.Progress.{last_change, spe_progress};
ghost use Rattle.run_progress.specs.Tracks.{Follows};

use crate::repeat::repeat;
use crate::tracks::Tracks;
use cell_machine::Machine;
use std::alloc::{AllocError, Global};

/// The least and the greatest of some addresses of a local store.
#[derive(Clone, Copy, Debug, PartialEq, Eq, Drop)]
pub struct AddressRange {
    pub least: u32,
    pub greatest: u32,
}

/// The bytes of main memory that an MFC polls.
#[derive(Clone, Copy, Debug, PartialEq, Eq, Drop)]
pub struct Poll {
    /// The address of the first one.
    pub at: u32,
    /// How many they are.
    pub len: u32,
    /// The place in the record, counted from 0, of the last step that wrote one of them. None if they are as the setup has them.
    pub writer: Option<u32>,
}

/// What a processor did at the end of a run.
#[derive(Clone, Copy, Debug, PartialEq, Eq, Drop)]
pub struct SpeProgress {
    /// The addresses of the last 1,000 instructions that it executed after the last change, or of all if there are fewer. None if it executed none.
    pub executed: Option<AddressRange>,
    /// What its MFC read of main memory last, after the last change. None if it read nothing since then.
    pub polled: Option<Poll>,
}

/// The progress of a run.
///
/// A step is a change if other actors can see that it was made: the host makes it, it puts a value into a mailbox or a signal register or takes one
/// from it, its processor ends with it, or it leaves other bytes in main memory than it found.
#[derive(Drop)]
pub struct Progress {
    /// How many steps the run has up to the last change, and with it. 0 if there is none.
    pub last_change: u32,
    /// Each processor, in the order of their numbers.
    pub spes: Vec<SpeProgress>,
}

/// Makes the machine's run again.
fn follow_again(
    alloc: Global,
    machine: &Machine,
    again: &mut Machine,
    tracks: &mut Tracks,
) -> Result<(), AllocError>
    requires opening { IsOpening machine.now.setup }
    requires begun { again.old ≡ record machine.now { steps = [] } }
    requires follows { Follows (length machine.now.setup.entries) [] tracks.old }
    ensures follows { OnOk result (Follows (length machine.now.setup.entries) (made_of machine.now) tracks.new) }
    ensures trace { OnOk result (trace_of machine.now ≡ Some (map event_of (made_of machine.now))) }
{
    for step in machine.steps() {
        let place = again.steps().len() as u32;
        let repeated = repeat(alloc, again, *step)?;
        tracks.follow(place, &repeated)?;
    }
    Ok(())
}

/// The progress of the run that the machine has made.
///
/// The run is made again on a machine of its own. Out of memory is the only refusal.
pub fn progress_of(alloc: Global, machine: &Machine) -> Result<Progress, AllocError>
    ensures change { IfOk result (λ r. r.last_change ≡ last_change (made_of machine.now)) }
    ensures spes { IfOk result (λ r. r.spes.items ≡ map (spe_progress (made_of machine.now)) (range_with_len 0 (length machine.now.setup.entries))) }
    ensures trace { IfOk result (λ _. trace_of machine.now ≡ Some (map event_of (made_of machine.now))) }
{
    let setup = machine.setup();
    let Ok(copy) = setup.copy(alloc) else {
        return Err(AllocError);
    };
    let Ok(mut again) = Machine::new(alloc, copy) else {
        return Err(AllocError);
    };
    let mut tracks = Tracks::new(alloc, setup.spes())?;
    follow_again(alloc, machine, &mut again, &mut tracks)?;
    tracks.progress(alloc, machine)
}
