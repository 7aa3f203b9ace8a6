//! The places that are ordered before one place of a run, counted from 0: ranges, a line each. Of each place of a run they stand in one line,
//! `PLACE | FIRST LAST | ..`.

ghost use Rattle.std.specs.Prelude.{◌≡◌, ◌<◌, ◌^◌, IfErr, IfOk, OnOk, length};
ghost use Rattle.cell_machine.specs.Run.{Ran};
ghost use Rattle.race_order.specs.OrderedRuns.{StandsForRun};
ghost use Rattle.cell_trace.specs.Effects.{grown};
ghost use Rattle.trace_commands.specs.Choices.{start};
ghost use Rattle.trace_commands.specs.declared.ranges.Layout.TheVariants.{Lines};
ghost use Rattle.trace_commands.specs.Told.{Adds, MarksBefore, RefusesNext, RefusesRest, TellsBefore, TellsLine, TellsLines, Told, ToldBehind};

use crate::fault::Fault;
use crate::following::{is_before, take, take_all};
use crate::ranges::{Layout, put_ranges};
use crate::words::Ask;
use cell_base::Step;
use cell_base::line_text::put_decimal;
use cell_machine::Machine;
use race_order::Orderer;
use std::alloc::{AllocError, Global};

/// Of each place before the last one whether it is ordered before that.
fn marks_of(alloc: Global, orderer: &Orderer, machine: &Machine) -> Result<Vec<bool>, AllocError>
    ghost m: { Ran }
    requires same { m ≡ machine.now }
    requires stands { StandsForRun orderer.now m }
    requires some { 0 < length machine.now.steps }
    ensures marks { IfOk result (λ marks. MarksBefore m marks.items) }
    ensures few { IfOk result (λ marks. length marks.items < 2 ^ 32) }
{
    let mut marks = Vec::new(alloc);
    let last = machine.steps().len() as u32 - 1;
    for place in 0..last {
        marks.push(is_before(orderer, machine, place))?;
    }
    Ok(marks)
}

/// Writes the places that are ordered before the last step.
fn put_before(
    alloc: Global,
    out: &mut Vec<u8>,
    orderer: &Orderer,
    machine: &Machine,
    layout: Layout,
) -> Result<(), AllocError>
    ghost m: { Ran }
    requires same { m ≡ machine.now }
    requires stands { StandsForRun orderer.now m }
    requires some { 0 < length machine.now.steps }
    ensures { OnOk result (Adds (TellsBefore layout m) out.old.items out.new.items) }
{
    let marks = marks_of(alloc, orderer, machine)?;
    put_ranges(out, layout, marks.as_slice())
}

/// Makes a step, and writes the places that are ordered before it, in a line.
fn put_next(
    alloc: Global,
    out: &mut Vec<u8>,
    orderer: &mut Orderer,
    machine: &mut Machine,
    step: Step,
) -> Result<(), Fault>
    ghost m: { Ran }
    requires same { m ≡ machine.old }
    requires stands { StandsForRun orderer.old m }
    ensures stands { IfOk result (λ _. StandsForRun orderer.new machine.new) }
    ensures made { OnOk result (machine.new ≡ grown machine.old step) }
    ensures line { OnOk result (Adds (TellsLine (grown machine.old step)) out.old.items out.new.items) }
    ensures refused { IfErr result (RefusesNext machine.old step) }
{
    put_decimal(out, machine.steps().len() as u32)?;
    take(orderer, machine, step)?;
    put_before(alloc, out, orderer, machine, Layout::Bars)?;
    out.extend_from_slice(b"\n")?;
    Ok(())
}

/// Makes steps from a machine's start, and writes the places that are ordered before each.
fn put_each(
    alloc: Global,
    out: &mut Vec<u8>,
    orderer: &mut Orderer,
    machine: &mut Machine,
    steps: &[Step],
) -> Result<(), Fault>
    ghost m: { Ran }
    requires same { m ≡ machine.old }
    requires stands { StandsForRun orderer.old m }
    requires start { m ≡ start m.setup }
    ensures lines { OnOk result (Adds (TellsLines m.setup steps.now (length steps.now)) out.old.items out.new.items) }
    ensures refused { IfErr result (RefusesRest m steps.now) }
{
    for step in steps {
        put_next(alloc, out, orderer, machine, *step)?;
    }
    Ok(())
}

/// Makes steps from a machine's start, and tells which places are ordered before the last one.
pub fn before_text(alloc: Global, machine: &mut Machine, steps: &[Step]) -> Result<Vec<u8>, Fault>
    requires start { machine.old ≡ start machine.old.setup }
    requires some { 0 < length steps.now }
    ensures { ToldBehind (TellsBefore Lines) machine.old.setup steps.now result }
{
    let Ok(mut orderer) = Orderer::new(alloc, machine.setup()) else {
        return Err(Fault::Memory);
    };
    let mut out = Vec::new(alloc);
    take_all(&mut orderer, machine, steps)?;
    put_before(alloc, &mut out, &orderer, machine, Layout::Lines)?;
    Ok(out)
}

/// Makes steps from a machine's start, and tells of each which places are ordered before it.
pub fn each_text(alloc: Global, machine: &mut Machine, steps: &[Step]) -> Result<Vec<u8>, Fault>
    requires start { machine.old ≡ start machine.old.setup }
    ensures { Told machine.old.setup steps.now Ask.BeforeEach result }
{
    let Ok(mut orderer) = Orderer::new(alloc, machine.setup()) else {
        return Err(Fault::Memory);
    };
    let mut out = Vec::new(alloc);
    put_each(alloc, &mut out, &mut orderer, machine, steps)?;
    Ok(out)
}
