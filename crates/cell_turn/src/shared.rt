//! The shared machine.
ghost use Rattle.std.specs.Prelude.{◌≡◌, ◌+◌, ◌<◌, ◌≤◌, [], ◌∷◌, vec_len, IfOk, IfErr};
ghost use mathlib.Core.List.{IsPrefix};
ghost use Rattle.cell_turn.specs.Known.{Belongs, Rests, TellsAll};
ghost use Rattle.cell_turn.specs.Told.{first_pass, left_pass, new_pass, Tells, TurnTells, Stays, Joined};

use crate::pass::Pass;
use crate::plays::{Cut, Glue, Settle};
use crate::turn::{ask, play, publish, release};
use crate::view::{Key, TurnRule, View};
use atomic_table::Table;
use cell_base::{Actor, Step};
use cell_machine::{End, Machine};
use std::alloc::Global;
use std::marker::Model;
use std::snapshot::Snapshot;
use std::sync::Wait;
use std::time::Duration;

/// For how many microseconds at most a thread rests that found the turn taken.
const PAUSE: u64 = 50;

/// A machine that threads share by reference. To a contract it is its table, its setup and the number of passes.
#[derive(Drop)]
pub struct Shared {
    table: Table<Machine, View, Key, TurnRule, Global>,
}

impl Model for Shared {
    ghost use Rattle.cell_turn.specs.Known.{Sharing};

    ghost Value = { Sharing };

    ghost use Rattle.cell_turn.specs.Shares.{sharing, IsSized};

    ghost view = { sharing };

    ghost invariant = { IsSized };
}

/// What one try gave.
#[derive(Debug, Drop)]
pub enum Tried {
    /// The step was made, and stands at this place of the record.
    Made { at: u32, step: Step },
    /// The run has this end.
    Over { end: End },
    /// Another pass had the turn. This is the turn word that was found.
    Busy { turn: u64 },
}

/// What one turn gave.
#[derive(Debug, Drop)]
pub enum Turned {
    /// The step was made, and stands at this place of the record.
    Made { at: u32, step: Step },
    /// The run has this end.
    Over { end: End },
}

/// Why a machine isn't shared.
#[derive(Drop)]
pub enum StartError {
    /// There was no memory for the table. The machine comes back.
    Memory { machine: Machine },
}

/// The machine, out of the slots of a table that was not made.
fn taken_back(mut slots: Vec<Machine>) -> Machine
    requires { vec_len slots ≡ 1 }
    ensures { slots.items ≡ result ∷ [] }
{
    let Some(machine) = slots.pop() else {
        unreachable!()
    };
    machine
}

impl Shared {
    /// Shares a machine that made no step yet among as many passes as `passes`, and answers the first one, which has all tokens.
    pub fn start(alloc: Global, machine: Machine, passes: u32) -> Result<(Shared, Pass), StartError>
        requires passes { 0 < passes }
        requires record { machine.steps ≡ [] }
        ensures setup { IfOk result (λ r. r.0.setup ≡ machine.setup) }
        ensures passes { IfOk result (λ r. r.0.passes ≡ passes) }
        ensures first { IfOk result (λ r. r.1 ≡ first_pass r.0) }
        ensures err { IfErr result (λ e. e ≡ StartError.Memory machine) }
    {
        let key = Key {
            setup: Snapshot::of(machine.setup()),
            passes,
        };
        let Ok(mut slots) = Vec::with_capacity(alloc, 1) else {
            return Err(StartError::Memory { machine });
        };
        slots.push_reserved(machine);
        match Table::new(alloc, &[0], slots, &key) {
            Ok((table, seat)) => Ok((
                Shared { table },
                Pass {
                    seat,
                    tokens: passes,
                    front: 0,
                    made: 0,
                },
            )),
            Err(refused) => {
                let atomic_table::Refused { slots } = refused;
                Err(StartError::Memory {
                    machine: taken_back(slots),
                })
            }
        }
    }

    /// A new pass, which gets one of the tokens and has seen as much.
    pub fn split(&self, pass: &mut Pass) -> Pass
        requires own { Belongs pass.old self.now }
        requires two { 2 ≤ pass.old.tokens }
        ensures left { pass.new ≡ left_pass pass.old }
        ensures new { result ≡ new_pass pass.old }
        ensures rests { Rests pass.old × Rests pass.new × Rests result }
    {
        let seat = self.table.shared.split_seat::<Cut>(&mut pass.seat);
        pass.tokens -= 1;
        Pass {
            seat,
            tokens: 1,
            front: pass.front,
            made: 0,
        }
    }

    /// Takes in another pass, with its tokens, its steps and what it has seen.
    pub fn join(&self, pass: &mut Pass, other: Pass)
        requires own { Belongs pass.old self.now }
        requires other_own { Belongs other self.now }
        ensures joined { Joined pass.old other pass.new }
        ensures rests { Rests pass.old × Rests other × Rests pass.new }
    {
        let Pass {
            seat,
            tokens,
            front,
            made,
        } = other;
        self.table.shared.join_seat::<Glue>(&mut pass.seat, seat);
        self.table.shared.load::<Settle>(&mut pass.seat, 0);
        pass.tokens += tokens;
        pass.made += made;
        if pass.front < front {
            pass.front = front;
        }
    }

    /// Asks for the turn once. Where it gets it, it makes one step, or says how the run has ended.
    pub fn try_step(&self, pass: &mut Pass, actor: Actor, choice: u64) -> Tried
        requires own { Belongs pass.old self.now }
        ensures same { Stays pass.old pass.new }
        ensures rests { Rests pass.old × Rests pass.new }
        ensures tries { pass.new.tries ≡ pass.old.tries + 1 }
        ensures tells { Tells pass.old pass.new actor choice result }
    {
        let table = &self.table.shared;
        if let Err(turn) = ask(table, &mut pass.seat) {
            return Tried::Busy { turn };
        }
        match play(table, &mut pass.seat, actor, choice) {
            Ok((at, step)) => {
                publish(table, &mut pass.seat);
                pass.front = at + 1;
                pass.made += 1;
                Tried::Made { at, step }
            }
            Err((at, end)) => {
                release(table, &mut pass.seat);
                pass.front = at;
                Tried::Over { end }
            }
        }
    }

    /// Asks for the turn until it gets it, and rests for a short time whenever another pass has it. No turn's end wakes it.
    pub fn step_as<R: Wait>(&self, rt: &R, pass: &mut Pass, actor: Actor, choice: u64) -> Turned
        requires own { Belongs pass.old self.now }
        ensures same { Stays pass.old pass.new }
        ensures rests { Rests pass.old × Rests pass.new }
        ensures tries { pass.old.tries < pass.new.tries }
        ensures tells { TurnTells pass.old pass.new actor choice result }
    {
        for _ in rt.forever() {
            match self.try_step(pass, actor, choice) {
                Tried::Made { at, step } => return Turned::Made { at, step },
                Tried::Over { end } => return Turned::Over { end },
                Tried::Busy { turn } => self.table.shared.park_timeout(
                    rt,
                    0,
                    (turn % (1 << 32)) as u32,
                    Duration::from_micros(PAUSE),
                ),
            }
        }
        unreachable!()
    }

    /// The machine, for the pass that has all tokens.
    pub fn close(self, pass: Pass) -> Machine
        requires own { Belongs pass self }
        requires all { pass.tokens ≡ self.passes }
        ensures setup { result.setup ≡ self.setup }
        ensures begins { IsPrefix pass.seen result.steps }
        ensures told { TellsAll pass.told result.steps }
        ensures rests { Rests pass }
    {
        let Shared { table } = self;
        let Pass { seat, .. } = pass;
        let mut closed = table.close_with(seat);
        let machine = closed.take(0);
        closed.free();
        machine
    }
}
