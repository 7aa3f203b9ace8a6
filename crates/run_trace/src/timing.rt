//! What it costs to order a run.

ghost use Rattle.std.specs.Prelude.{◌≡◌, ◌≤◌, []};
ghost use Rattle.cell_machine.specs.Run.{Ran};
ghost use Rattle.race_order.specs.OrderedRuns.{StandsForRun};

use cell_base::Step;
use cell_io::Store;
use cell_machine::Machine;
use race_check::check_races;
use race_order::Orderer;
use std::fmt::Display;
use std::fs;
use std::time::Instant;
use trace_commands::{Fault, is_before, make_all, read_recorded, read_start, take};

/// How many questions are put at each step.
const QUESTIONS: u32 = 4;

/// The line of the kernel's account of a process that tells the most memory that was in use.
fn memory_line(status: &str) -> Option<&str> {
    for line in status.lines() {
        if line.starts_with("VmHWM") {
            return Some(line);
        }
    }
    None
}

/// Prints a line.
fn print_line<D: Display + Drop>(rt: &HostRuntime, line: D) -> Result<(), Fault> {
    match rt.println(line) {
        Ok(()) => Ok(()),
        Err(_) => Err(Fault::WriteFault),
    }
}

/// Prints the most memory that was in use, where the kernel tells it.
fn print_memory(rt: &HostRuntime) -> Result<(), Fault> {
    let Ok(status) = fs::read_to_string(rt, "/proc/self/status") else {
        return Ok(());
    };
    match memory_line(status.as_str()) {
        Some(line) => print_line(rt, line),
        None => Ok(()),
    }
}

fn print_number(rt: &HostRuntime, what: &str, number: u128) -> Result<(), Fault> {
    print_line(rt, format_args!("{what} {number}"))
}

/// How many microseconds have passed since then; 0 where that can't be told.
fn since(rt: &HostRuntime, then: Option<Instant>) -> u128 {
    match then {
        Some(then) => match then.elapsed(rt) {
            Ok(passed) => passed.as_micros(),
            Err(_) => 0,
        },
        None => 0,
    }
}

/// Times the steps without an order.
fn time_made(rt: &HostRuntime, machine: &mut Machine, steps: &[Step]) -> Result<(), Fault> {
    let start = Instant::now(rt).ok();
    make_all(machine, steps)?;
    print_number(rt, "alone", since(rt, start))
}

/// How many of some earlier places are ordered before the last step.
fn ask(orderer: &Orderer, machine: &Machine) -> u32
    ghost m: { Ran }
    requires same { m ≡ machine.now }
    requires stands { StandsForRun orderer.now m }
    ensures { result ≤ 4 }
{
    let count = machine.steps().len() as u32;
    let mut ordered = 0;
    for question in 0..QUESTIONS {
        // places that are spread over the run
        let place = (u64::from(count) * 2_654_435_761 + u64::from(question) * 40_503)
            % u64::from(count.max(1));
        if is_before(orderer, machine, place as u32) {
            ordered += 1;
        }
    }
    ordered
}

/// Makes steps, and takes them into the order. Where it asks, it puts questions at each, and answers how many were answered by yes.
fn take_all(
    orderer: &mut Orderer,
    machine: &mut Machine,
    steps: &[Step],
    asks: bool,
) -> Result<u64, Fault>
    ghost m: { Ran }
    requires same { m ≡ machine.old }
    requires stands { StandsForRun orderer.old m }
{
    let mut yes: u64 = 0;
    for step in steps {
        take(orderer, machine, *step)?;
        if asks {
            yes = yes.wrapping_add(u64::from(ask(orderer, machine)));
        }
    }
    Ok(yes)
}

/// Times the steps with their order, with questions or without: prints the time, and how many questions were answered by yes, or the most memory that was
/// in use.
fn time_ordered(
    rt: &HostRuntime,
    machine: &mut Machine,
    steps: &[Step],
    asks: bool,
) -> Result<(), Fault>
    requires { machine.old ≡ record { setup = machine.old.setup; steps = [] } }
{
    let Ok(mut orderer) = Orderer::new(rt.alloc(), machine.setup()) else {
        return Err(Fault::Memory);
    };
    let start = Instant::now(rt).ok();
    let yes = take_all(&mut orderer, machine, steps, asks)?;
    if asks {
        print_number(rt, "asking", since(rt, start))?;
        print_number(rt, "answered by yes", u128::from(yes))
    } else {
        print_number(rt, "ordered", since(rt, start))?;
        print_memory(rt)
    }
}

/// Makes the steps, and times the search for races.
fn time_races(rt: &HostRuntime, machine: &mut Machine, steps: &[Step]) -> Result<(), Fault> {
    make_all(machine, steps)?;
    let start = Instant::now(rt).ok();
    let Ok(verdict) = check_races(rt.alloc(), machine) else {
        return Err(Fault::Memory);
    };
    print_number(rt, "races", since(rt, start))?;
    print_line(rt, format_args!("{verdict:?}"))
}

/// A way of following steps that is timed.
#[derive(Clone, Copy)]
enum Way {
    /// By a machine alone.
    Made,
    /// With their order.
    Ordered,
    /// With their order, and questions put at each.
    Asked,
    /// With a search for races behind them.
    Searched,
}

const WAYS: [Way; 4] = [Way::Made, Way::Ordered, Way::Asked, Way::Searched];

/// Times one way of following steps.
fn time_way(rt: &HostRuntime, machine: &mut Machine, steps: &[Step], way: Way) -> Result<(), Fault>
    requires { machine.old ≡ record { setup = machine.old.setup; steps = [] } }
{
    match way {
        Way::Made => time_made(rt, machine, steps),
        Way::Ordered => time_ordered(rt, machine, steps, false),
        Way::Asked => time_ordered(rt, machine, steps, true),
        Way::Searched => time_races(rt, machine, steps),
    }
}

/// Times one way of following steps by a machine from its start.
fn time_from_start<T: Store>(
    rt: &HostRuntime,
    files: &mut T,
    machine: &str,
    steps: &[Step],
    way: Way,
) -> Result<(), Fault> {
    let mut machine = read_start(rt.alloc(), files, machine)?;
    time_way(rt, &mut machine, steps, way)
}

/// Prints how long each way of following the steps of a record takes.
pub fn print_times<T: Store>(
    rt: &HostRuntime,
    files: &mut T,
    machine: &str,
    record_file: &str,
) -> Result<(), Fault> {
    let recorded = read_recorded(rt.alloc(), files, record_file)?;
    let steps = recorded.steps();
    print_number(rt, "steps", steps.len() as u128)?;
    print_memory(rt)?;
    for way in WAYS {
        time_from_start(rt, files, machine, steps, way)?;
    }
    Ok(())
}
