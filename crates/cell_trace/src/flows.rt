//! What the flow controllers hold at a state.

ghost use Rattle.std.specs.Prelude.{◌≡◌, ◌<◌, ◌++◌, [], ◌∷◌, ◌/◌, ◌==◌, if◌then◌else◌, codes, length, Some, OnOk, IsSomeAnd, is_some, slice_get};
ghost use Rattle.std.specs.Option.{option_map_or};
ghost use Rattle.cell_base.specs.Records.{field, line_feed};
ghost use Rattle.cell_signals.specs.Registers.{register_of, value_in};
ghost use Rattle.mfc_command.specs.Order.{is_list};
ghost use Rattle.cell_trace.specs.Fields.{named, bit, word};
ghost use Rattle.cell_trace.specs.Flows.{params_field, request_field, fixed_field, tags_fields, stalls_field, slot_fields, reserved_field, reserved_fields, events_field, signal_field, signals_fields, mailbox_field, left_field, element_fields, list_fields, progress_fields, command_line, command_lines, script_line, flow_front, flow_back, flow_line, spe_flow, spe_flows, flows_of};
ghost use Rattle.cell_machine.specs.State.{State};
ghost use Rattle.cell_machine.specs.Spe.{Spe};
ghost use Rattle.cell_machine.specs.Moves.{outstanding};
ghost use Rattle.cell_machine.specs.Run.{state_of};

use crate::fields::{put_command, put_named, put_number, put_slot, put_status, put_word};
use crate::looking::status_of;
use cell_channels::Channels;
use cell_machine::{Machine, Outstanding};
use cell_signals::{Events, Signals};
use mfc_command::{Kind, Params};
use std::alloc::AllocError;
use tag_groups::{Request, TagStatus, Tags};

/// How many bytes of the local store an element of a list has.
const ELEMENT_BYTES: u32 = 8;

fn put_params(out: &mut Vec<u8>, x: Params) -> Result<(), AllocError>
    ensures { OnOk result (out.new.items ≡ out.old.items ++ params_field x) }
{
    put_named(out, b"params", &[x.lsa, x.eah, x.eal, x.size, x.tag])
}

fn put_request(out: &mut Vec<u8>, request: Option<Request>) -> Result<(), AllocError>
    ensures { OnOk result (out.new.items ≡ out.old.items ++ option_map_or request_field request []) }
{
    match request {
        Some(request) => put_named(out, b"request", &[request.how, request.mask]),
        None => Ok(()),
    }
}

fn put_fixed(out: &mut Vec<u8>, status: Option<TagStatus>) -> Result<(), AllocError>
    ensures { OnOk result (out.new.items ≡ out.old.items ++ option_map_or fixed_field status []) }
{
    match status {
        Some(status) => put_named(out, b"fixed", &[status.groups, status.issued]),
        None => Ok(()),
    }
}

/// Writes the mask of the tag groups, the request that is pending, and the status that is unread.
#[tactic(auto, unfolding(crate::specs::Flows::tags_fields))]
fn put_tags(out: &mut Vec<u8>, tags: &Tags) -> Result<(), AllocError>
    ensures { OnOk result (out.new.items ≡ out.old.items ++ tags_fields tags.now) }
{
    put_named(out, b"mask", &[tags.mask()])?;
    put_request(out, tags.asked())?;
    put_fixed(out, tags.status())
}

fn put_stalls(out: &mut Vec<u8>, stalls: u32) -> Result<(), AllocError>
    ensures { OnOk result (out.new.items ≡ out.old.items ++ stalls_field stalls) }
{
    if stalls == 0 {
        return Ok(());
    }
    put_named(out, b"stalls", &[stalls])
}

/// Writes the unread stalls, the atomic command in the slot, and the unread status of one.
#[tactic(auto, unfolding(crate::specs::Flows::slot_fields))]
fn put_slots(out: &mut Vec<u8>, channels: &Channels) -> Result<(), AllocError>
    ensures { OnOk result (out.new.items ≡ out.old.items ++ slot_fields channels.now) }
{
    put_stalls(out, channels.stalls())?;
    put_slot(out, channels.slot())?;
    put_status(out, status_of(channels))
}

/// Writes the line that was reserved last, and whether it is held still.
fn put_line(out: &mut Vec<u8>, line: u32, held: Option<u32>) -> Result<(), AllocError>
    ensures { OnOk result (out.new.items ≡ out.old.items ++ reserved_field line held) }
{
    put_named(out, b"reserved", &[line])?;
    match held {
        Some(_) => put_word(out, b"held"),
        None => put_word(out, b"lost"),
    }
}

/// The same, if there is one.
#[tactic(auto, unfolding(crate::specs::Flows::reserved_fields))]
fn put_reserved(out: &mut Vec<u8>, line: Option<u32>, held: Option<u32>) -> Result<(), AllocError>
    ensures { OnOk result (out.new.items ≡ out.old.items ++ reserved_fields line held) }
{
    match line {
        Some(line) => put_line(out, line, held),
        None => Ok(()),
    }
}

/// Writes the mask of the events and those that are pending, where there are such.
#[tactic(auto, unfolding(crate::specs::Flows::events_field))]
fn put_events(out: &mut Vec<u8>, events: &Events) -> Result<(), AllocError>
    ensures { OnOk result (out.new.items ≡ out.old.items ++ events_field events.now) }
{
    let (mask, pending) = (events.mask(), events.pending());
    if mask == 0 && pending == 0 {
        return Ok(());
    }
    put_named(out, b"events", &[mask, pending])
}

fn put_signal(out: &mut Vec<u8>, name: &[u8], value: Option<u32>) -> Result<(), AllocError>
    ensures { OnOk result (out.new.items ≡ out.old.items ++ option_map_or (signal_field name.now) value []) }
{
    match value {
        Some(value) => put_named(out, name, &[value]),
        None => Ok(()),
    }
}

/// Writes the signal registers that are ready.
#[tactic(auto, unfolding(crate::specs::Flows::signals_fields))]
fn put_signals(out: &mut Vec<u8>, signals: &Signals) -> Result<(), AllocError>
    ensures { OnOk result (out.new.items ≡ out.old.items ++ signals_fields signals.now) }
{
    put_signal(out, b"sig1", signals.value(1))?;
    put_signal(out, b"sig2", signals.value(2))
}

/// Writes a mailbox that has values.
fn put_mailbox(out: &mut Vec<u8>, name: &[u8], values: &[u32]) -> Result<(), AllocError>
    ensures { OnOk result (out.new.items ≡ out.old.items ++ mailbox_field name.now values.now) }
{
    if values.is_empty() {
        return Ok(());
    }
    put_named(out, name, values)
}

/// Writes how many parts are left, of all.
fn put_left(out: &mut Vec<u8>, it: &Outstanding) -> Result<(), AllocError>
    ensures { OnOk result (out.new.items ≡ out.old.items ++ left_field it.now) }
{
    put_named(out, b"left", &[it.left, it.parts])
}

/// Writes the element of a list that is in progress.
fn put_element(out: &mut Vec<u8>, it: &Outstanding) -> Result<(), AllocError>
    ensures { OnOk result (out.new.items ≡ out.old.items ++ option_map_or (element_fields it.now) it.now.element []) }
{
    match it.element {
        Some(x) => {
            let (number, flagged) = (u32::from(x.number), u32::from(x.flagged));
            put_named(out, b"element", &[number, it.parts, flagged, x.ea, x.size])?;
            put_left(out, it)
        }
        None => Ok(()),
    }
}

fn put_stalled(out: &mut Vec<u8>, stalled: bool) -> Result<(), AllocError>
    ensures { OnOk result (out.new.items ≡ out.old.items ++ (if stalled then named (codes "stalled") [] else [])) }
{
    if stalled {
        put_named(out, b"stalled", &[])
    } else {
        Ok(())
    }
}

/// Writes how far a list has come.
#[tactic(auto, unfolding(crate::specs::Flows::list_fields))]
fn put_list(out: &mut Vec<u8>, it: &Outstanding) -> Result<(), AllocError>
    ensures { OnOk result (out.new.items ≡ out.old.items ++ list_fields it.now) }
{
    let elements = it.command.size / ELEMENT_BYTES;
    put_named(out, b"read", &[u32::from(it.read), elements])?;
    put_element(out, it)?;
    put_stalled(out, it.stalled)
}

/// Writes how far a command has come.
#[tactic(auto, unfolding(crate::specs::Flows::progress_fields))]
fn put_progress(out: &mut Vec<u8>, it: &Outstanding) -> Result<(), AllocError>
    ensures { OnOk result (out.new.items ≡ out.old.items ++ progress_fields it.now) }
{
    match it.command.kind {
        Kind::PutList | Kind::GetList => put_list(out, it),
        _ => put_left(out, it),
    }
}

/// Writes the line of a command of a processor.
#[tactic(auto, unfolding(crate::specs::Flows::command_line))]
fn put_outstanding(out: &mut Vec<u8>, spe: u8, it: &Outstanding) -> Result<(), AllocError>
    ensures { OnOk result (out.new.items ≡ out.old.items ++ command_line spe it.now) }
{
    out.extend_from_slice(b"command")?;
    put_number(out, u32::from(spe))?;
    put_command(out, it.number, it.command)?;
    put_progress(out, it)?;
    out.extend_from_slice(b"\n")
}

/// Writes the line of the host's script.
fn put_script(out: &mut Vec<u8>, done: u32, all: u32) -> Result<(), AllocError>
    ensures { OnOk result (out.new.items ≡ out.old.items ++ script_line done all) }
{
    out.extend_from_slice(b"script")?;
    put_number(out, done)?;
    put_number(out, all)?;
    out.extend_from_slice(b"\n")
}

/// Writes the line of a processor up to its reservation.
#[tactic(auto, unfolding(crate::specs::Flows::flow_front))]
fn put_front(out: &mut Vec<u8>, m: &Machine, spe: u8) -> Result<(), AllocError>
    requires { spe < length m.now.setup.entries }
    ensures { OnOk result ((M : State) → (P : Spe) → state_of m.now ≡ Some M → slice_get M.spes spe ≡ Some P → out.new.items ≡ out.old.items ++ flow_front spe P) }
{
    let channels = m.channels(spe);
    out.extend_from_slice(b"flow")?;
    put_number(out, u32::from(spe))?;
    put_params(out, channels.params())?;
    put_tags(out, m.tags(spe))?;
    put_slots(out, channels)
}

/// Writes the rest behind that.
#[tactic(auto, unfolding(crate::specs::Flows::flow_back))]
fn put_back(out: &mut Vec<u8>, m: &Machine, spe: u8) -> Result<(), AllocError>
    requires { spe < length m.now.setup.entries }
    ensures { OnOk result ((M : State) → (P : Spe) → state_of m.now ≡ Some M → slice_get M.spes spe ≡ Some P → out.new.items ≡ out.old.items ++ flow_back P) }
{
    put_events(out, m.events(spe))?;
    put_signals(out, m.signals(spe))?;
    put_mailbox(out, b"in", m.inbound(spe).values())?;
    put_mailbox(out, b"out", m.outbound(spe).values())?;
    put_mailbox(out, b"intr", m.interrupt(spe).values())?;
    out.extend_from_slice(b"\n")
}

/// Writes the line of a processor.
#[tactic(auto, unfolding(crate::specs::Flows::flow_line))]
fn put_flow(out: &mut Vec<u8>, m: &Machine, spe: u8) -> Result<(), AllocError>
    requires { spe < length m.now.setup.entries }
    ensures { OnOk result ((M : State) → (P : Spe) → state_of m.now ≡ Some M → slice_get M.spes spe ≡ Some P → out.new.items ≡ out.old.items ++ flow_line M.memory spe P) }
{
    put_front(out, m, spe)?;
    put_reserved(out, m.line_reserved(spe), m.line_held(spe))?;
    put_back(out, m, spe)
}

/// Writes the lines of a processor's outstanding commands.
fn put_commands(out: &mut Vec<u8>, m: &Machine, spe: u8) -> Result<(), AllocError>
    requires { spe < length m.now.setup.entries }
    ensures { OnOk result ((M : State) → (P : Spe) → state_of m.now ≡ Some M → slice_get M.spes spe ≡ Some P → out.new.items ≡ out.old.items ++ command_lines spe P (outstanding P)) }
{
    let most = m.steps().len();
    let mut next: u32 = 0;
    for _ in 0..most {
        let Some(it) = m.outstanding_from(spe, next) else {
            return Ok(());
        };
        put_outstanding(out, spe, &it)?;
        next = it.number.saturating_add(1);
    }
    Ok(())
}

/// Writes the lines of a processor.
fn put_spe(out: &mut Vec<u8>, m: &Machine, spe: u8) -> Result<(), AllocError>
    requires { spe < length m.now.setup.entries }
    ensures { OnOk result ((M : State) → (P : Spe) → state_of m.now ≡ Some M → slice_get M.spes spe ≡ Some P → out.new.items ≡ out.old.items ++ spe_flow M.memory spe P) }
{
    put_flow(out, m, spe)?;
    put_commands(out, m, spe)
}

/// Writes the lines of all processors.
fn put_spes(out: &mut Vec<u8>, m: &Machine) -> Result<(), AllocError>
    ensures { OnOk result ((M : State) → state_of m.now ≡ Some M → out.new.items ≡ out.old.items ++ spe_flows M.memory 0 M.spes) }
{
    for spe in 0..m.setup().spes() {
        put_spe(out, m, spe)?;
    }
    Ok(())
}

/// Writes what the flow controllers hold, and how far the host has come. The only refusal is want of memory. It takes time as the outstanding commands are
/// many, each of which has at most 129 parts.
pub fn put_flows(out: &mut Vec<u8>, m: &Machine) -> Result<(), AllocError>
    ensures { OnOk result (IsSomeAnd (state_of m.now) (λ M. out.new.items ≡ out.old.items ++ flows_of M)) }
{
    put_spes(out, m)?;
    let host = m.host();
    put_script(out, host.place(), m.setup().actions().len() as u32)
}
