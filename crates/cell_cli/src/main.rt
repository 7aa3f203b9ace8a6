//! `cell`: runs programs of the Cell processor's SPUs and writes the record of their steps.
#![tactic(auto)]

mod round;
mod words;

use cell_commands::{Status, cell};
use cell_io::{DirStore, OutSink};
use round::RoundGate;
use std::io;
use std::process::ExitCode;
use words::words_of;

fn main(rt: HostRuntime) -> ExitCode {
    let mut files = DirStore::new(&rt);
    let mut out = OutSink::new(io::writer(&rt));
    let gate = RoundGate::new(&rt);
    let (status, reason) = match words_of(&rt) {
        Ok(words) => {
            let words = words.as_slice();
            let status = cell(&rt, rt.alloc(), words, &mut files, &mut out, &gate);
            (status, "")
        }
        Err(refusal) => (Status::Refused(refusal.fault), refusal.reason),
    };
    if let Status::Refused(fault) = status {
        let _ = eprintln!(rt; "cell: {fault}{reason}");
    }
    ExitCode::from(status.code())
}
