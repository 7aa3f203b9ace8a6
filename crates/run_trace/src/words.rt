//! The words of the command line, and why they are refused where one isn't UTF-8: std opens files by names in UTF-8 alone.

use cell_commands::{Fault as InputFault, FileId};
use cell_io::{Words, read_words};
use trace_commands::{Fault, Form, form_of};

/// Why nothing was done, and what is said behind that.
#[derive(Clone, Copy)]
pub struct Refusal {
    pub fault: Fault,
    pub reason: &'static str,
}

/// Whether the words are those of `time`, a form that trace_commands doesn't have.
fn is_time(texts: &[String]) -> bool {
    match texts {
        [form, _, _] => form.as_str() == "time",
        _ => false,
    }
}

/// A file has a name that isn't UTF-8; the fault is the one that it can't be read.
fn unreadable(fault: Fault) -> Refusal {
    Refusal {
        fault,
        reason: ": its name is not UTF-8",
    }
}

/// The same of a file that `cell` reads, too.
fn unreadable_input(file: FileId) -> Refusal {
    unreadable(Fault::Input(InputFault::ReadFault { file }))
}

/// Why words are refused of which the one at this place is the first that isn't UTF-8. The texts have U+FFFD for what isn't, which stands in no form's
/// own words and in no number.
fn refusal_of(texts: &[String], place: usize) -> Refusal {
    match form_of(texts) {
        Form::NoForm if !is_time(texts) => Refusal {
            fault: Fault::Usage,
            reason: "",
        },
        Form::Lines { .. } => unreadable_input(FileId::Source(0)),
        _ if place == 1 => unreadable_input(FileId::Machine),
        Form::Choose { .. } => unreadable(Fault::ReadFault),
        Form::Go { .. } if place == 4 => unreadable(Fault::ReadFault),
        _ => unreadable_input(FileId::Rec),
    }
}

/// The words behind the program's name, where all are UTF-8.
pub fn words_of(rt: &HostRuntime) -> Result<Vec<String>, Refusal> {
    let Ok(Words { texts, not_utf8 }) = read_words(rt, rt.alloc()) else {
        return Err(Refusal {
            fault: Fault::Memory,
            reason: "",
        });
    };
    match not_utf8 {
        None => Ok(texts),
        Some(place) => Err(refusal_of(texts.as_slice(), place)),
    }
}
