//! Tests by calls of the libraries, of what no run of a program shows: memory and queues, the generator's program, runs that are replayed and
//! reordered, a machine that threads share, and what `cell` does.
#![tactic(auto)]

#[cfg(test)]
mod adapters;
#[cfg(test)]
mod failures;
#[cfg(test)]
mod forms;
#[cfg(test)]
mod generated;
#[cfg(test)]
mod memory;
#[cfg(test)]
mod queue;
#[cfg(test)]
mod runs;
#[cfg(test)]
mod threads;
#[cfg(test)]
mod turns;

#[cfg(test)]
use cell_base::Step;
#[cfg(test)]
use std::process::Abort;

/// `il $3,5`, `ai $3,$3,-6` and `stop 0x1234`.
#[cfg(test)]
const PROGRAM: [u8; 12] = [
    0x40, 0x80, 0x02, 0x83, 0x1c, 0xfe, 0x81, 0x83, 0x00, 0x00, 0x12, 0x34,
];

/// The step of an instruction of processor 0.
#[cfg(test)]
const EXEC: Step = Step::Exec { spe: 0 };

/// An assertion that is cheap to prove: where it fails, the innermost call in a test is named.
#[cfg(test)]
fn holds(rt: &impl Abort, is_so: bool) {
    if !is_so {
        panic!(rt; "a test doesn't hold");
    }
}
