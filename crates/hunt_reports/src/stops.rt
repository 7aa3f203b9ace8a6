//! Steps that end a processor by a halt or a fault.

ghost use Rattle.std.specs.Prelude.{◌≡◌, ◌++◌, flat_map, Some, IfOk, OnOk};
ghost use Rattle.cell_machine.specs.State.{State};
ghost use Rattle.cell_machine.specs.Run.{state_of};
ghost use Rattle.hunt_reports.specs.Stops.{ended_told, fault_shown, fault_told, halt_shown, halt_told, site_told, stop_at, stop_of, stop_told};

use crate::compared::{Compared, compared_at, put_compared};
use crate::locations::{Location, location_of, put_note_start, put_spu};
use crate::origins::Places;
use crate::places::put_instruction;
use cell_hunt::{Ended, Site};
use cell_machine::{Machine, Status};
use hunt_tally::Telling;
use state_lines::put_status;
use std::alloc::{AllocError, Global};

/// The instruction that ended a processor, the processor's status, and what the instruction compared.
#[derive(Clone, Copy)]
pub struct Stop {
    pub location: Location,
    pub status: Status,
    pub compared: Compared,
}

/// The stop of a processor at an instruction.
fn stop_at(m: &Machine, location: Location) -> Option<Stop>
    ensures { (M : State) → state_of m.now ≡ Some M → result ≡ stop_at M.spes location }
{
    if location.spe >= m.setup().spes() {
        return None;
    }
    Some(Stop {
        location,
        status: m.status(location.spe),
        compared: compared_at(m, location),
    })
}

/// The stop by a step from this site.
fn stop_of(m: &Machine, site: Site) -> Option<Stop>
    ensures { (M : State) → state_of m.now ≡ Some M → result ≡ stop_of M.spes site }
{
    stop_at(m, location_of(site)?)
}

/// The line of a halt.
fn halt_shown(alloc: Global, places: &Places, stop: Stop) -> Result<Vec<u8>, AllocError>
    ensures { IfOk result (λ v. v.items ≡ halt_shown places.now stop) }
{
    let mut shown = Vec::new(alloc);
    put_note_start(&mut shown, places, stop.location)?;
    put_spu(&mut shown, stop.location.spe)?;
    put_compared(&mut shown, stop.compared)?;
    shown.extend_from_slice(b")\n")?;
    Ok(shown)
}

/// The finding of a halt.
fn halt_told(alloc: Global, places: &Places, stop: Stop) -> Result<Telling, AllocError>
    ensures { IfOk result (λ t. t ≡ halt_told places.now stop) }
{
    let mut key = Vec::from_slice(alloc, b"halt")?;
    put_instruction(&mut key, places, stop.location.spe, stop.location.at)?;
    let shown = halt_shown(alloc, places, stop)?;
    Ok(Telling { key, shown })
}

/// The line of a fault.
fn fault_shown(alloc: Global, places: &Places, stop: Stop) -> Result<Vec<u8>, AllocError>
    ensures { IfOk result (λ v. v.items ≡ fault_shown places.now stop) }
{
    let mut shown = Vec::new(alloc);
    put_note_start(&mut shown, places, stop.location)?;
    put_spu(&mut shown, stop.location.spe)?;
    shown.extend_from_slice(b": ")?;
    put_status(&mut shown, stop.status)?;
    shown.extend_from_slice(b")\n")?;
    Ok(shown)
}

/// The finding of a fault.
fn fault_told(alloc: Global, places: &Places, stop: Stop) -> Result<Telling, AllocError>
    ensures { IfOk result (λ t. t ≡ fault_told places.now stop) }
{
    let mut key = Vec::from_slice(alloc, b"fault")?;
    put_instruction(&mut key, places, stop.location.spe, stop.location.at)?;
    key.push(b' ')?;
    put_status(&mut key, stop.status)?;
    let shown = fault_shown(alloc, places, stop)?;
    Ok(Telling { key, shown })
}

/// Takes in the finding of a stop, if it is one.
fn take_stop(
    alloc: Global,
    findings: &mut Vec<Telling>,
    places: &Places,
    stop: Stop,
) -> Result<(), AllocError>
    ensures { OnOk result (findings.new.items ≡ findings.old.items ++ stop_told places.now stop stop.status) }
{
    match stop.status {
        Status::Halted => findings.push(halt_told(alloc, places, stop)?)?,
        Status::BadWord => findings.push(fault_told(alloc, places, stop)?)?,
        Status::BadChannel => findings.push(fault_told(alloc, places, stop)?)?,
        Status::DmaFault { .. } => findings.push(fault_told(alloc, places, stop)?)?,
        _ => {}
    }
    Ok(())
}

/// Takes in the finding of a step from this site, if it is one.
fn take_site(
    alloc: Global,
    findings: &mut Vec<Telling>,
    places: &Places,
    m: &Machine,
    site: Site,
) -> Result<(), AllocError>
    ensures { OnOk result ((M : State) → state_of m.now ≡ Some M → findings.new.items ≡ findings.old.items ++ site_told places.now M.spes site) }
{
    match stop_of(m, site) {
        Some(stop) => take_stop(alloc, findings, places, stop),
        None => Ok(()),
    }
}

/// Takes in the findings of the steps that ended a processor.
pub fn take_stops(
    alloc: Global,
    findings: &mut Vec<Telling>,
    places: &Places,
    m: &Machine,
    endings: &[Ended],
) -> Result<(), AllocError>
    ensures { OnOk result ((M : State) → state_of m.now ≡ Some M → findings.new.items ≡ findings.old.items ++ flat_map (ended_told places.now M.spes) endings.now) }
{
    for ended in endings {
        take_site(alloc, findings, places, m, ended.site)?;
    }
    Ok(())
}
