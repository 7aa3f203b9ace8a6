//! The steps of a turn: it is asked for, the machine in the slot makes a step where it can, and the turn is ended.
ghost use Rattle.std.specs.Prelude.{◌≡◌, ◌+◌, ◌^◌, ◌<◌, ◌≤◌, [], ◌∷◌, ◌++◌, length, Some, None, IfOk, IfErr, OnOk, false};
ghost use Rattle.cell_base.specs.declared.steps.Step as step;
ghost use Rattle.cell_machine.specs.Run.{next_of, first_of, EndsAs};
ghost use Rattle.cell_turn.specs.Choice.{ran, chosen, made};
ghost use Rattle.cell_turn.specs.Turn.{with_step};
ghost use Rattle.cell_turn.specs.Seats.{IsSeatOf, IsReady, HasTurn, Begun, Refused, Played, Ended};

use crate::plays::{Ask, Publish, Release};
use crate::view::{Key, TurnRule, View};
use cell_base::{Actor, Step};
use cell_machine::{End, Machine};

pub(crate) type TurnTable = atomic_table::Shared<Machine, View, Key, TurnRule>;

pub(crate) type TurnSeat = atomic_table::Seat<Machine, View>;

/// Asks for the turn once. Where another seat has it, this is the word that was found.
pub(crate) fn ask(table: &TurnTable, seat: &mut TurnSeat) -> Result<(), u64>
    requires seat { IsSeatOf table.now.table_id seat.old }
    requires ready { IsReady table.now.key seat.old.me }
    ensures same { (seat.new.table_id ≡ seat.old.table_id) × (seat.new.id ≡ seat.old.id) }
    ensures begun { OnOk result (Begun seat.old.me seat.new.me) }
    ensures refused { IfErr result (λ n. Refused seat.old.me n seat.new.me) }
{
    let turn = table.fetch_or::<Ask>(seat, 0, 1);
    if turn % 2 == 1 { Err(turn) } else { Ok(()) }
}

/// How many steps the record has.
fn record_len(machine: &Machine) -> u32
    ensures length { result ≡ length machine.now.steps }
    ensures few { result ≤ 1000000 }
{
    let budget = machine.setup().budget();
    let len = machine.steps().len();
    prove!(len <= budget as usize);
    len as u32
}

/// How a run has ended that can't go on.
fn ending(machine: &Machine) -> End
    requires { (s : step.Step) → next_of machine.now s ≡ None }
    ensures { EndsAs machine.now (Some result) }
{
    let Some(end) = machine.end() else {
        unreachable!()
    };
    end
}

/// Makes the first step that is allowed, or says how the run has ended where none is.
fn take_any(machine: &mut Machine) -> Result<Step, End>
    ensures first { IfOk result (λ s. first_of machine.old ≡ Some s) }
    ensures made { IfOk result (λ s. machine.new ≡ made machine.old s) }
    ensures open { IfOk result (λ _. EndsAs machine.old None) }
    ensures over { IfErr result (λ e. EndsAs machine.old (Some e) × (machine.new ≡ machine.old)) }
{
    match machine.step_any() {
        Some(step) => Ok(step),
        None => Err(ending(machine)),
    }
}

/// Makes the step of the actor for this choice where it has one, and else any that is allowed, or says how the run has ended where none is.
fn take_turn(machine: &mut Machine, actor: Actor, choice: u64) -> Result<Step, End>
    ensures chosen { IfOk result (λ s. chosen machine.old actor choice ≡ Some s) }
    ensures made { IfOk result (λ s. machine.new ≡ made machine.old s) }
    ensures open { IfOk result (λ _. EndsAs machine.old None) }
    ensures over { IfErr result (λ e. EndsAs machine.old (Some e) × (machine.new ≡ machine.old)) }
{
    match machine.step_as(actor, choice) {
        Some(step) => Ok(step),
        None => take_any(machine),
    }
}

/// The turn of the seat that has it: how many steps the record had, and the step that was made, or how the run has ended.
pub(crate) fn play(
    table: &TurnTable,
    seat: &mut TurnSeat,
    actor: Actor,
    choice: u64,
) -> Result<(u32, Step), (u32, End)>
    requires seat { IsSeatOf table.now.table_id seat.old }
    requires turn { let v = seat.old.me.0 in HasTurn table.now.key seat.old.me (ran v.setup v.seen) }
    ensures same { (seat.new.table_id ≡ seat.old.table_id) × (seat.new.id ≡ seat.old.id) }
    ensures played { IfOk result (λ r. Played seat.old.me actor choice r.0 r.1 seat.new.me) }
    ensures ended { IfErr result (λ r. Ended seat.old.me r.0 r.1 seat.new.me) }
{
    let machine = seat.slot_mut(table, 0);
    let at = record_len(machine);
    match take_turn(machine, actor, choice) {
        Ok(step) => Ok((at, step)),
        Err(end) => Err((at, end)),
    }
}

/// Ends a turn in which the machine made a step.
pub(crate) fn publish(table: &TurnTable, seat: &mut TurnSeat)
    requires seat { IsSeatOf table.now.table_id seat.old }
    requires turn { let v = seat.old.me.0 in (s : step.Step) × HasTurn table.now.key seat.old.me (ran v.setup (v.seen ++ s ∷ [])) }
    requires room { length seat.old.me.0.seen + 1 < 2 ^ 32 }
    ensures same { (seat.new.table_id ≡ seat.old.table_id) × (seat.new.id ≡ seat.old.id) }
    ensures told { let v = seat.old.me.0 in (s : step.Step) → seat.old.me.1 ≡ (0, ran v.setup (v.seen ++ s ∷ [])) ∷ [] → seat.new.me ≡ (with_step v s, []) }
{
    table.fetch_add::<Publish>(seat, 0, 1);
}

/// Ends a turn in which it made none.
pub(crate) fn release(table: &TurnTable, seat: &mut TurnSeat)
    requires seat { IsSeatOf table.now.table_id seat.old }
    requires turn { let v = seat.old.me.0 in HasTurn table.now.key seat.old.me (ran v.setup v.seen) }
    ensures same { (seat.new.table_id ≡ seat.old.table_id) × (seat.new.id ≡ seat.old.id) }
    ensures told { seat.new.me ≡ (record seat.old.me.0 { holds = false }, []) }
{
    table.fetch_sub::<Release>(seat, 0, 1);
}
