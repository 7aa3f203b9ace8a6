//! Tells tools, tests and benchmarks of this repository what the steps of a run do and which are ordered, and what it costs to know.
//!
//! `choose MACHINE CHOICES` makes a run of a machine file, in which each number of the file CHOICES chooses an actor and one of its steps, and prints its
//! record. `alone MACHINE` makes a run to its end on one thread, in which the actors take turns, and prints what `cell run` would.
//! `effects MACHINE RECORD` prints of each step of a record what it does, `log MACHINE RECORD` what it changed, `before MACHINE RECORD PLACE` the places that
//! are ordered before one place, and `states MACHINE RECORD STEPS` the states and the flow controllers after the first so many steps; each takes time and
//! memory as the record is long, and the lines of effects, flow controllers and states are those of cell_trace and cell_report. `before MACHINE RECORD` prints
//! a line for each step, with the places that are ordered before it, of which there are as many as pairs of steps. `states MACHINE RECORD` prints the states
//! after all steps of a record. `go MACHINE RECORD STEPS CHOICES` makes the first so many steps of a record, and then those that the numbers of a file choose;
//! it prints the effects of these, then what `states` would print behind them, and then what may be done next. `lines SOURCE` prints a line for each line of a
//! source, with its number, `text` or `data`, its address and the address behind it, and then one for each label, with the number of its line. `plan MACHINE`
//! prints a line for each line of a machine file that has words: its number, the processor that it is of or a dash, and the words. `time MACHINE RECORD` prints
//! how many microseconds it takes to follow a record, alone, with an orderer, and with questions put to it, and to search it for races, each once it is
//! measured.
//! Nothing is printed where something is refused, but by `time`.
#![tactic(auto)]

mod timing;
mod words;

use cell_io::{DirStore, OutSink};
use std::io;
use std::process::ExitCode;
use timing::print_times;
use trace_commands::{Fault, Status, trace};
use words::words_of;

/// Does what the words ask for.
fn obey(rt: &HostRuntime, words: &[String]) -> Status {
    let mut files = DirStore::new(rt);
    match words {
        [form, machine, record_file] if form.as_str() == "time" => {
            match print_times(rt, &mut files, machine.as_str(), record_file.as_str()) {
                Ok(()) => Status::Done,
                Err(fault) => Status::Refused(fault),
            }
        }
        _ => {
            let mut out = OutSink::new(io::writer(rt));
            trace(rt.alloc(), words, &mut files, &mut out)
        }
    }
}

/// The form that trace_commands doesn't have, behind those that it has.
fn own_form(fault: Fault) -> &'static str {
    match fault {
        Fault::Usage => ", time M RECORD",
        _ => "",
    }
}

fn main(rt: HostRuntime) -> ExitCode {
    let (status, reason) = match words_of(&rt) {
        Ok(words) => (obey(&rt, words.as_slice()), ""),
        Err(refusal) => (Status::Refused(refusal.fault), refusal.reason),
    };
    if let Status::Refused(fault) = status {
        let own = own_form(fault);
        let _ = eprintln!(rt; "run_trace: {fault}{own}{reason}");
    }
    ExitCode::from(status.code())
}
