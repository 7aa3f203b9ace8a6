//! Where the ends of chains are looked for first.

use cell_base::Step;
use std::alloc::{AllocError, Global};

/// How many tracks there are at most: those of sixteen processors and the host.
const TRACKS: usize = 17;

/// How many commands of a processor are told apart, by the remainders of their numbers: so many can be outstanding.
const COMMANDS: usize = 16;

/// The hints of a row: one for each track, and for a flow controller's row one for each command, of its own processor's track.
const ROW: usize = TRACKS + COMMANDS;

/// How many steps of each chain were ordered before the last instruction of a processor, and before the last step of its flow controller,
/// as they mostly are before the next. Nothing rests on them: what they say is looked at before it is used.
#[derive(Drop)]
pub struct Hints {
    ends: Vec<usize>,
}

/// The command of a step of a flow controller.
fn command_of(step: Step) -> Option<u32> {
    match step {
        Step::Piece { cmd, .. } => Some(cmd),
        Step::Elem { cmd, .. } => Some(cmd),
        Step::Retire { cmd, .. } => Some(cmd),
        Step::Exec { .. } => None,
        Step::Atomic { .. } => None,
        Step::Host => None,
    }
}

/// Where the hints of a step stand: those of other actors' tracks from here on, and that of its own actor's track.
#[derive(Clone, Copy)]
pub struct Row {
    first: usize,
    own: usize,
    // none for an instruction, which mostly comes behind all of its track
    at: Option<usize>,
}

impl Row {
    /// That of such a step of an actor.
    pub fn of(step: Step, own: usize) -> Row {
        let actor = own.min(TRACKS - 1);
        match command_of(step) {
            Some(cmd) => {
                let first = (TRACKS + actor) * ROW;
                let at = Some(first + TRACKS + cmd as usize % COMMANDS);
                Row { first, own, at }
            }
            None => Row {
                first: actor * ROW,
                own,
                at: None,
            },
        }
    }

    /// Where the hint of the track of this number stands.
    fn slot(self, track: usize) -> Option<usize> {
        if track == self.own {
            return self.at;
        }
        Some(self.first.saturating_add(track))
    }
}

impl Hints {
    /// Before the first step no step is ordered before one.
    pub fn new(alloc: Global) -> Result<Hints, AllocError> {
        Ok(Hints {
            ends: vec![in alloc; 0usize; 2 * TRACKS * ROW]?,
        })
    }

    /// How many steps of the chain of a track are mostly ordered before the step of the row.
    pub fn of(&self, row: Row, track: usize) -> usize {
        let Some(at) = row.slot(track) else {
            return usize::MAX;
        };
        match self.ends.get(at) {
            Some(end) => *end,
            None => 0,
        }
    }

    /// Keeps how many were.
    pub fn keep(&mut self, row: Row, track: usize, end: usize) {
        if let Some(at) = row.slot(track) {
            if at < self.ends.len() {
                self.ends[at] = end;
            }
        }
    }
}
