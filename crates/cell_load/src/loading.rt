// The setup of a machine file.
ghost use Rattle.std.specs.Prelude.{◌≡◌, ◌≢◌, ◌≤◌, ◌<◌, ◌+◌, ◌*◌, ◌%◌, ◌++◌, ◌∷◌, [], length, map, unwrap_or, All, IfOk, IfSome, OnOk, fold};
ghost use Rattle.std.specs.List.{filter_map};
ghost use Rattle.std.specs.Option.{option_to_list};
ghost use Rattle.cell_machine.specs.Limits.{IsOpening, FitsAction, FitsMemory, FitsShow, FitsStore, MayAct, MayShow};
ghost use Rattle.cell_load.specs.Entries.{entry_of};
ghost use Rattle.cell_load.specs.Loaded.{LoadGives, budget_number, first_of, host_action, lines_number, loaded, machine_of, memory_piece, or_register, placed_of, placed_part, shown_range, starts_of, with_register};
ghost use Rattle.cell_load.specs.LoadViews.{FitsRegister, load_of, part_of};
ghost use Rattle.cell_load.specs.Sources.{sources_of, spes_in};
ghost use Rattle.cell_load.specs.declared.loading.LoadError.TheVariants.{Memory};

use crate::line::Line;
use crate::loads::{Load, Part, loads_in, spes_in, start_of};
use crate::plan::Plan;
use crate::rows::check_processors;
use cell_machine::{Setup, SetupError, Show};
use local_store::StoreError;
use spu_asm::Image;
use std::alloc::{AllocError, Global};
use std::fmt;
use thiserror::Error;

/// Why a machine file gives no setup.
#[derive(Clone, Copy, PartialEq, Eq, Error)]
pub enum LoadError {
    /// The first text word that is no instruction of the table, by processor and then by address.
    #[error("the word {word:#010x} at {address:#x} of processor {spe} is no instruction")]
    NotInTable { spe: u8, address: u32, word: u32 },
    #[error("out of memory")]
    Memory,
}

impl fmt::Debug for LoadError {
    fn fmt<W: fmt::Write>(&self, f: &mut fmt::Formatter<W>) -> fmt::Result {
        fmt::Display::fmt(self, f)
    }
}

impl From<AllocError> for LoadError {
    ghost from_gives = { λ _ e. e ≡ Memory };

    fn from(_: AllocError) -> LoadError {
        LoadError::Memory
    }
}

impl From<StoreError> for LoadError {
    ghost from_gives = { λ _ e. e ≡ Memory };

    fn from(_: StoreError) -> LoadError {
        LoadError::Memory
    }
}

/// The error where a setup refused what is within its limits.
fn within_limits(error: SetupError) -> AllocError
    requires { error ≢ SetupError.Limit }
{
    match error {
        SetupError::Memory => AllocError,
        SetupError::Limit => unreachable!(),
    }
}

fn lines_number(lines: &[Line]) -> u32
    ensures { result ≡ unwrap_or (first_of lines_number (map entry_of lines.now)) 0 }
{
    for line in lines {
        if let Line::Lines { n } = line {
            return *n;
        }
    }
    0
}

fn budget_number(lines: &[Line]) -> u32
    ensures { result ≡ unwrap_or (first_of budget_number (map entry_of lines.now)) 0 }
{
    for line in lines {
        if let Line::Budget { n } = line {
            return *n;
        }
    }
    0
}

/// Adds a processor with its start address.
fn add_spe(setup: &mut Setup, at: u32) -> Result<(), AllocError>
    requires room { length setup.old.entries < 16 }
    requires place { (at < 262144) × (at % 4 ≡ 0) }
    ensures { OnOk result (setup.new ≡ record setup.old { entries = setup.old.entries ++ at ∷ [] }) }
{
    let spe = match setup.add_spe() {
        Ok(spe) => spe,
        Err(error) => return Err(within_limits(error)),
    };
    if let Err(error) = setup.set_entry(spe, at) {
        return Err(within_limits(error));
    }
    Ok(())
}

/// Adds so many processors, each with its start address.
fn add_spes(setup: &mut Setup, loads: &[Load], spes: u8) -> Result<(), AllocError>
    requires none { setup.old.entries ≡ [] }
    requires few { spes ≤ 16 }
    requires places { All (λ at. (at < 262144) × (at % 4 ≡ 0)) (starts_of (map load_of loads.now) spes) }
    ensures { OnOk result (setup.new ≡ record setup.old { entries = starts_of (map load_of loads.now) spes }) }
{
    for spe in 0..spes {
        add_spe(setup, start_of(loads, spe))?;
    }
    Ok(())
}

fn place(setup: &mut Setup, spe: u8, at: u32, bytes: &[u8]) -> Result<(), AllocError>
    requires { FitsStore (length setup.old.entries) (record { spe = spe; at = at; bytes = bytes.now }) }
    ensures { OnOk result (setup.new ≡ record setup.old { placed = setup.old.placed ++ record { spe = spe; at = at; bytes = bytes.now } ∷ [] }) }
{
    match setup.place(spe, at, bytes) {
        Ok(()) => Ok(()),
        Err(error) => Err(within_limits(error)),
    }
}

/// Places the bytes of a part.
fn place_load(setup: &mut Setup, load: &Load) -> Result<(), AllocError>
    requires { IfSome (placed_part load.now.spe (part_of load.now.part)) (FitsStore (length setup.old.entries)) }
    ensures { OnOk result (setup.new ≡ record setup.old { placed = setup.old.placed ++ option_to_list (placed_part load.now.spe (part_of load.now.part)) }) }
{
    match load.part {
        Part::Text { at, bytes } => place(setup, load.spe, at, bytes),
        Part::Data { at, bytes } => place(setup, load.spe, at, bytes),
        _ => Ok(()),
    }
}

/// Places the bytes of these parts in their order.
fn place_loads(setup: &mut Setup, loads: &[Load]) -> Result<(), AllocError>
    requires { All (FitsStore (length setup.old.entries)) (placed_of (map load_of loads.now)) }
    ensures { OnOk result (setup.new ≡ record setup.old { placed = setup.old.placed ++ placed_of (map load_of loads.now) }) }
{
    for load in loads {
        place_load(setup, load)?;
    }
    Ok(())
}

/// Places the bytes of a line in main memory.
fn place_memory(setup: &mut Setup, line: &Line) -> Result<(), AllocError>
    requires { IfSome (memory_piece (entry_of line.now)) (FitsMemory setup.old.lines) }
    ensures { OnOk result (setup.new ≡ record setup.old { memory = setup.old.memory ++ option_to_list (memory_piece (entry_of line.now)) }) }
{
    let Line::MemoryBytes { at, bytes } = line else {
        return Ok(());
    };
    match setup.place_memory(*at, bytes.as_slice()) {
        Ok(()) => Ok(()),
        Err(error) => Err(within_limits(error)),
    }
}

/// Places the bytes of the lines in main memory in their order.
fn fill_memory(setup: &mut Setup, lines: &[Line]) -> Result<(), AllocError>
    requires { All (FitsMemory setup.old.lines) (filter_map memory_piece (map entry_of lines.now)) }
    ensures { OnOk result (setup.new ≡ record setup.old { memory = setup.old.memory ++ filter_map memory_piece (map entry_of lines.now) }) }
{
    for line in lines {
        place_memory(setup, line)?;
    }
    Ok(())
}

/// Adds the host action of a line.
fn add_action(setup: &mut Setup, line: &Line) -> Result<(), AllocError>
    requires { IfSome (host_action (entry_of line.now)) (MayAct setup.old) }
    ensures { OnOk result (setup.new ≡ record setup.old { actions = setup.old.actions ++ option_to_list (host_action (entry_of line.now)) }) }
{
    let Line::Host { action } = line else {
        return Ok(());
    };
    match setup.add_action(*action) {
        Ok(()) => Ok(()),
        Err(error) => Err(within_limits(error)),
    }
}

/// Adds the host actions of the lines in their order.
fn add_actions(setup: &mut Setup, lines: &[Line]) -> Result<(), AllocError>
    requires room { length setup.old.actions + length (filter_map host_action (map entry_of lines.now)) ≤ 4096 }
    requires fits { All (FitsAction setup.old.lines (length setup.old.entries)) (filter_map host_action (map entry_of lines.now)) }
    ensures { OnOk result (setup.new ≡ record setup.old { actions = setup.old.actions ++ filter_map host_action (map entry_of lines.now) }) }
{
    for line in lines {
        add_action(setup, line)?;
    }
    Ok(())
}

/// Puts the signal register of a line into OR mode.
fn set_mode(setup: &mut Setup, line: &Line) -> Result<(), AllocError>
    requires { IfSome (or_register (entry_of line.now)) (FitsRegister (length setup.old.entries)) }
    ensures { OnOk result (setup.new ≡ record setup.old { or_modes = fold with_register setup.old.or_modes (option_to_list (or_register (entry_of line.now))) }) }
{
    let Line::OrMode { spe, register } = line else {
        return Ok(());
    };
    match setup.set_or_mode(*spe, *register) {
        Ok(()) => Ok(()),
        Err(error) => Err(within_limits(error)),
    }
}

/// Puts the signal registers of the lines into OR mode.
fn set_modes(setup: &mut Setup, lines: &[Line]) -> Result<(), AllocError>
    requires { All (FitsRegister (length setup.old.entries)) (filter_map or_register (map entry_of lines.now)) }
    ensures { OnOk result (setup.new ≡ record setup.old { or_modes = fold with_register setup.old.or_modes (filter_map or_register (map entry_of lines.now)) }) }
{
    for line in lines {
        set_mode(setup, line)?;
    }
    Ok(())
}

/// Adds the range that a line shows.
fn add_show(setup: &mut Setup, line: &Line) -> Result<(), AllocError>
    requires few { length setup.old.entries ≤ 16 }
    requires may { IfSome (shown_range (entry_of line.now)) (MayShow setup.old) }
    ensures { OnOk result (setup.new ≡ record setup.old { shows = setup.old.shows ++ option_to_list (shown_range (entry_of line.now)) }) }
{
    let range = match line {
        Line::ShowLocal { spe, at, len } => Show::Local {
            spe: *spe as u8,
            at: *at,
            len: *len,
        },
        Line::ShowMemory { at, len } => Show::Memory { at: *at, len: *len },
        _ => return Ok(()),
    };
    match setup.add_show(range) {
        Ok(()) => Ok(()),
        Err(error) => Err(within_limits(error)),
    }
}

/// Adds the ranges that the lines show in their order.
fn add_shows(setup: &mut Setup, lines: &[Line]) -> Result<(), AllocError>
    requires few { length setup.old.entries ≤ 16 }
    requires room { length setup.old.shows + length (filter_map shown_range (map entry_of lines.now)) ≤ 64 }
    requires fits { All (FitsShow setup.old.lines (length setup.old.entries)) (filter_map shown_range (map entry_of lines.now)) }
    ensures { OnOk result (setup.new ≡ record setup.old { shows = setup.old.shows ++ filter_map shown_range (map entry_of lines.now) }) }
{
    for line in lines {
        add_show(setup, line)?;
    }
    Ok(())
}

/// The setup that lines and their parts stand for.
fn setup_in(alloc: Global, lines: &[Line], loads: &[Load], spes: u8) -> Result<Setup, AllocError>
    requires limits { IsOpening (machine_of (map entry_of lines.now) (map load_of loads.now)) }
    requires count { spes ≡ spes_in (map entry_of lines.now) }
    requires modes { All (FitsRegister spes) (filter_map or_register (map entry_of lines.now)) }
    ensures { IfOk result (λ s. s ≡ machine_of (map entry_of lines.now) (map load_of loads.now)) }
{
    let mut setup = match Setup::new(alloc, lines_number(lines), budget_number(lines)) {
        Ok(setup) => setup,
        Err(error) => return Err(within_limits(error)),
    };
    add_spes(&mut setup, loads, spes)?;
    place_loads(&mut setup, loads)?;
    fill_memory(&mut setup, lines)?;
    add_actions(&mut setup, lines)?;
    set_modes(&mut setup, lines)?;
    add_shows(&mut setup, lines)?;
    Ok(setup)
}

/// The setup of a plan with the images of its sources in their order. Bytes are placed in the order
/// of the lines, a source's text from address 0 on. `NotInTable` names the first text word, of an
/// image or a `code` line, that is no instruction once everything is placed.
pub fn load(alloc: Global, plan: Plan, images: &[Image]) -> Result<Setup, LoadError>
    requires count { length images.now ≡ length (sources_of plan) }
    ensures exact { LoadGives (λ s. s) result (loaded plan images.now) }
    ensures some { IfOk result (λ s. 0 < length s.entries) }
{
    let loads = loads_in(alloc, &plan.lines, images)?;
    let spes = spes_in(&plan.lines);
    let setup = setup_in(alloc, &plan.lines, &loads, spes)?;
    check_processors(alloc, &loads, spes)?;
    Ok(setup)
}
