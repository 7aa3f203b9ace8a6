//! The log of a run: the lines of its steps, each with the changes that the step made.

ghost use Rattle.std.specs.Prelude.{◌≡◌, ◌<◌, ◌+◌, ◌++◌, [], ◌∷◌, not, bytes_eq, if◌then◌else◌, codes, length, Some, OnOk, IfOk, IfSome, IsSome, ◌↔◌, is_some, slice_get};
ghost use Rattle.std.specs.List.{flat_map};
ghost use Rattle.std.specs.Option.{option_map_or};
ghost use Rattle.cell_base.specs.Hex.{hex, byte_hex};
ghost use Rattle.cell_base.specs.Records.{line_feed};
ghost use Rattle.cell_machine.specs.State.{State};
ghost use Rattle.cell_machine.specs.Spe.{Spe};
ghost use Rattle.cell_machine.specs.Effects.{effect_in};
ghost use Rattle.cell_machine.specs.EffectLaws.{bytes_in};
ghost use Rattle.cell_machine.specs.Run.{next_of, state_of};
ghost use Rattle.state_lines.specs.Lines.{status_text};
ghost use Rattle.cell_trace.specs.Fields.{word, named};
ghost use Rattle.cell_trace.specs.Effects.{asked_in, after_in, step_words, told_fields, line_by, refused_in, grown, Makes};
ghost use Rattle.cell_trace.specs.Logs.{address, bytes_word, registers_in, is_changed, register_field, register_fields, pc_field, exec_fields, own_changes, place_field, bytes_field, state_field, ended_field, end_field, changes, log_line, log_between, logs_in, HasRegisters, LiesWithin};

use crate::effects::{put_told, put_words};
use crate::fields::put_named;
use crate::looking::{Before, look_after, look_before};
use cell_base::line_text::{put_hex, put_hex_bytes};
use cell_base::{Quad, Step};
use cell_machine::{Effect, Machine, Note, Place, Span};
use state_lines::put_status;
use std::alloc::{AllocError, Global};

/// How many registers a processor has.
const REGISTERS: usize = 128;

/// How many hexadecimal digits an address of main memory has, and one of a local store.
const MEMORY_DIGITS: u32 = 8;

const STORE_DIGITS: u32 = 5;

fn put_address(out: &mut Vec<u8>, digits: u32, at: u32) -> Result<(), AllocError>
    ensures { OnOk result (out.new.items ≡ out.old.items ++ address digits at) }
{
    out.extend_from_slice(b" 0x")?;
    put_hex(out, digits, at)
}

fn put_bytes(out: &mut Vec<u8>, bytes: &[u8]) -> Result<(), AllocError>
    ensures { OnOk result (out.new.items ≡ out.old.items ++ bytes_word bytes.now) }
{
    out.extend_from_slice(b" ")?;
    put_hex_bytes(out, bytes)
}

/// The registers of the processor whose instruction the step is.
fn registers_in(alloc: Global, m: &Machine, step: Step) -> Result<Vec<Quad>, AllocError>
    ensures registers { IfOk result (λ v. (M : State) → state_of m.now ≡ Some M → v.items ≡ registers_in M step) }
    ensures all { IfOk result (λ v. HasRegisters m.now step v.items) }
{
    match step {
        Step::Exec { spe } if spe < m.setup().spes() => Vec::from_slice(alloc, m.registers(spe)),
        _ => Ok(Vec::new(alloc)),
    }
}

/// Writes a register, if it has other bytes than before.
fn put_register(
    out: &mut Vec<u8>,
    spe: u8,
    r: u8,
    before: Quad,
    after: Quad,
) -> Result<(), AllocError>
    ensures { OnOk result (out.new.items ≡ out.old.items ++ (if not (bytes_eq before after) then register_field spe r after else [])) }
{
    let bytes = after.bytes();
    if before.bytes().as_slice() == bytes.as_slice() {
        return Ok(());
    }
    put_named(out, b"reg", &[u32::from(spe), u32::from(r)])?;
    put_bytes(out, &bytes)
}

/// Writes the registers of a processor that have other bytes than before.
fn put_registers(
    out: &mut Vec<u8>,
    spe: u8,
    before: &[Quad],
    after: &[Quad],
) -> Result<(), AllocError>
    requires before { length before.now ≡ 128 }
    requires after { length after.now ≡ 128 }
    ensures { OnOk result (out.new.items ≡ out.old.items ++ register_fields spe before.now after.now) }
{
    for r in 0..REGISTERS {
        put_register(out, spe, r as u8, before[r], after[r])?;
    }
    Ok(())
}

/// Writes what an instruction of a processor that is there changed of that.
fn put_exec(out: &mut Vec<u8>, m: &Machine, spe: u8, before: &[Quad]) -> Result<(), AllocError>
    requires there { spe < length m.now.setup.entries }
    requires before { length before.now ≡ 128 }
    ensures { OnOk result ((N : State) → (Q : Spe) → state_of m.now ≡ Some N → slice_get N.spes spe ≡ Some Q → out.new.items ≡ out.old.items ++ exec_fields spe before.now Q) }
{
    put_named(out, b"pc", &[u32::from(spe)])?;
    put_address(out, STORE_DIGITS, m.pc(spe))?;
    put_registers(out, spe, before, m.registers(spe))
}

/// Writes what a step changed of its processor.
#[tactic(auto, unfolding(crate::specs::Logs::own_changes))]
fn put_own(out: &mut Vec<u8>, m: &Machine, step: Step, before: &[Quad]) -> Result<(), AllocError>
    requires { HasRegisters m.now step before.now }
    ensures { OnOk result ((N : State) → state_of m.now ≡ Some N → out.new.items ≡ out.old.items ++ own_changes before.now N step) }
{
    match step {
        Step::Exec { spe } if spe < m.setup().spes() => put_exec(out, m, spe, before),
        _ => Ok(()),
    }
}

/// The bytes of a span of main memory.
fn memory_bytes(alloc: Global, m: &Machine, at: u32, len: u32) -> Result<Vec<u8>, AllocError>
    requires { LiesWithin m.now (record { place = Place.Memory; at = at; len = len }) }
    ensures { IfOk result (λ v. (N : State) → state_of m.now ≡ Some N → v.items ≡ bytes_in N (record { place = Place.Memory; at = at; len = len })) }
{
    let mut bytes = vec![in alloc; 0u8; len as usize]?;
    m.memory().copy_out(at, bytes.as_mut_slice());
    Ok(bytes)
}

/// The bytes of a span of a processor's local store, none if it isn't there.
fn local_bytes(
    alloc: Global,
    m: &Machine,
    spe: u8,
    at: u32,
    len: u32,
) -> Result<Vec<u8>, AllocError>
    requires { LiesWithin m.now (record { place = Place.Local spe; at = at; len = len }) }
    ensures { IfOk result (λ v. (N : State) → state_of m.now ≡ Some N → v.items ≡ bytes_in N (record { place = Place.Local spe; at = at; len = len })) }
{
    if spe >= m.setup().spes() {
        return Ok(Vec::new(alloc));
    }
    let mut bytes = vec![in alloc; 0u8; len as usize]?;
    m.local(spe).copy_out(at, bytes.as_mut_slice());
    Ok(bytes)
}

/// The bytes of a span.
fn bytes_in(alloc: Global, m: &Machine, span: Span) -> Result<Vec<u8>, AllocError>
    requires { LiesWithin m.now span }
    ensures { IfOk result (λ v. (N : State) → state_of m.now ≡ Some N → v.items ≡ bytes_in N span) }
{
    match span.place {
        Place::Memory => memory_bytes(alloc, m, span.at, span.len),
        Place::Local(spe) => local_bytes(alloc, m, spe, span.at, span.len),
    }
}

fn put_place(out: &mut Vec<u8>, place: Place, at: u32) -> Result<(), AllocError>
    ensures { OnOk result (out.new.items ≡ out.old.items ++ place_field place at) }
{
    match place {
        Place::Memory => {
            put_named(out, b"mem", &[])?;
            put_address(out, MEMORY_DIGITS, at)
        }
        Place::Local(spe) => {
            put_named(out, b"ls", &[u32::from(spe)])?;
            put_address(out, STORE_DIGITS, at)
        }
    }
}

/// Writes the bytes of a span, if it has some.
fn put_span(out: &mut Vec<u8>, span: Span, bytes: &[u8]) -> Result<(), AllocError>
    ensures { OnOk result (out.new.items ≡ out.old.items ++ bytes_field span bytes.now) }
{
    if span.len == 0 {
        return Ok(());
    }
    put_place(out, span.place, span.at)?;
    put_bytes(out, bytes)
}

/// Writes the bytes that a step wrote, as they are after it.
fn put_written(alloc: Global, out: &mut Vec<u8>, m: &Machine, span: Span) -> Result<(), AllocError>
    requires { LiesWithin m.now span }
    ensures { OnOk result ((N : State) → state_of m.now ≡ Some N → out.new.items ≡ out.old.items ++ bytes_field span (bytes_in N span)) }
{
    let bytes = bytes_in(alloc, m, span)?;
    put_span(out, span, bytes.as_slice())
}

/// Writes the state of a processor that is there.
fn put_state(out: &mut Vec<u8>, m: &Machine, spe: u8) -> Result<(), AllocError>
    requires { spe < length m.now.setup.entries }
    ensures { OnOk result ((N : State) → (Q : Spe) → state_of m.now ≡ Some N → slice_get N.spes spe ≡ Some Q → out.new.items ≡ out.old.items ++ state_field spe Q) }
{
    put_named(out, b"spe", &[u32::from(spe)])?;
    out.extend_from_slice(b" ")?;
    put_status(out, m.status(spe))
}

/// Writes the state of the processor of a step.
fn put_ended(out: &mut Vec<u8>, m: &Machine, step: Step) -> Result<(), AllocError>
    ensures { OnOk result ((N : State) → state_of m.now ≡ Some N → out.new.items ≡ out.old.items ++ ended_field N step) }
{
    match step {
        Step::Exec { spe } if spe < m.setup().spes() => put_state(out, m, spe),
        Step::Elem { spe, .. } if spe < m.setup().spes() => put_state(out, m, spe),
        _ => Ok(()),
    }
}

/// The same, if the step's note says that its processor ceased to run.
#[tactic(auto, unfolding(crate::specs::Logs::end_field))]
fn put_end(out: &mut Vec<u8>, m: &Machine, step: Step, note: Note) -> Result<(), AllocError>
    ensures { OnOk result ((N : State) → state_of m.now ≡ Some N → out.new.items ≡ out.old.items ++ end_field N step note) }
{
    match note {
        Note::Ended => put_ended(out, m, step),
        _ => Ok(()),
    }
}

/// Writes the changes that a step of this effect made.
#[tactic(auto, unfolding(crate::specs::Logs::changes))]
fn put_changes(
    alloc: Global,
    out: &mut Vec<u8>,
    m: &Machine,
    step: Step,
    effect: &Effect,
    registers: &[Quad],
) -> Result<(), AllocError>
    requires registers { HasRegisters m.now step registers.now }
    requires span { LiesWithin m.now effect.now.writes }
    ensures { OnOk result ((N : State) → state_of m.now ≡ Some N → out.new.items ≡ out.old.items ++ changes registers.now N step effect.now) }
{
    put_own(out, m, step, registers)?;
    put_written(alloc, out, m, effect.writes)?;
    put_end(out, m, step, effect.note)
}

/// Writes the line of a step that was made.
fn put_line(
    alloc: Global,
    out: &mut Vec<u8>,
    m: &Machine,
    step: Step,
    effect: &Effect,
    before: &Before,
    registers: &[Quad],
) -> Result<(), AllocError>
    requires registers { HasRegisters m.now step registers.now }
    requires span { LiesWithin m.now effect.now.writes }
    ensures { OnOk result ((N : State) → state_of m.now ≡ Some N → out.new.items ≡ out.old.items ++ log_line registers.now N step effect.now before.now (after_in N step before.now.asked)) }
{
    let after = look_after(m, step, before.asked);
    put_words(out, step)?;
    put_changes(alloc, out, m, step, effect, registers)?;
    put_told(out, effect, before, &after)?;
    out.extend_from_slice(b"\n")
}

/// The effect of a step, if it is allowed; what it writes lies in its place.
fn effect_of(m: &Machine, step: Step) -> Option<Effect>
    ensures effect { result ≡ effect_in m.now step }
    ensures allowed { IsSome result ↔ IsSome (next_of m.now step) }
    ensures within { IfSome result (λ e. LiesWithin m.now e.writes) }
{
    let _ = m.steps();
    m.effect(step)
}

/// Makes a step and writes its line, and says whether it is allowed. If it isn't, nothing is made or written. The only error is out of memory.
fn put_step(
    alloc: Global,
    out: &mut Vec<u8>,
    m: &mut Machine,
    step: Step,
) -> Result<bool, AllocError>
    ensures told { IfOk result (λ is_told. is_told ≡ is_some (line_by log_between m.old step)) }
    ensures line { OnOk result (out.new.items ≡ out.old.items ++ option_map_or (λ line. line) (line_by log_between m.old step) []) }
    ensures made { IfOk result (λ is_told. m.new ≡ (if is_told then grown m.old step else m.old)) }
    ensures allowed { IfOk result (λ is_told. is_told ≡ is_some (next_of m.old step)) }
{
    let Some(effect) = effect_of(m, step) else {
        return Ok(false);
    };
    let before = look_before(m, step, &effect);
    let registers = registers_in(alloc, m, step)?;
    if m.step(step).is_err() {
        return Ok(false);
    }
    put_line(alloc, out, m, step, &effect, &before, registers.as_slice())?;
    Ok(true)
}

/// Makes steps and writes their lines, each with the changes that the step made, up to the first that isn't allowed, which it returns. The only error is out of
/// memory. Each instruction takes the time of comparing 128 registers.
pub fn put_log(
    alloc: Global,
    out: &mut Vec<u8>,
    m: &mut Machine,
    steps: &[Step],
) -> Result<Option<Step>, AllocError>
    ensures lines { OnOk result (out.new.items ≡ out.old.items ++ logs_in m.old steps.now) }
    ensures refused { IfOk result (λ refused. refused ≡ refused_in m.old steps.now) }
    ensures made { IfOk result (Makes m.old steps.now m.new) }
{
    for step in steps {
        if !put_step(alloc, out, m, *step)? {
            return Ok(Some(*step));
        }
    }
    Ok(None)
}
