//! `hunt`: runs a machine many times under random schedules, and reports what it finds.
#![tactic(auto)]

mod look;
mod words;

use cell_io::{DirStore, OutSink};
use hunt_command::{Status, hunt};
use look::Look;
use std::io;
use std::process::ExitCode;
use words::{name_behind, time_of, until_of, words_of};

fn main(rt: HostRuntime) -> ExitCode {
    let mut files = DirStore::new(&rt);
    let mut out = OutSink::new(io::writer(&rt));
    let words = match words_of(&rt) {
        Ok(words) => words,
        Err(refusal) => {
            let _ = eprintln!(rt; "hunt: {}{}", refusal.fault, refusal.reason);
            return ExitCode::from(Status::Refused(refusal.fault).code());
        }
    };
    let words = words.as_slice();
    let mut look = Look::new(&rt, until_of(words), time_of(words));
    let status = hunt(&rt, rt.alloc(), words, &mut files, &mut out, &mut look);
    look.tell_end();
    if let Status::Refused(fault) = status {
        match name_behind(words, fault) {
            Some(name) => {
                let _ = eprintln!(rt; "hunt: {fault}: {name}");
            }
            None => {
                let _ = eprintln!(rt; "hunt: {fault}");
            }
        }
    }
    ExitCode::from(status.code())
}
