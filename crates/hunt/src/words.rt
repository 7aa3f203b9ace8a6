//! The words of the command line, and which file a refusal speaks of.

ghost use Rattle.std.specs.Prelude.{◌≡◌, ◌≢◌, ◌↔◌, map, string_bytes};
ghost use Rattle.hunt_command.specs.Words.{spoken, no_form};

use cell_commands::{Fault as InputFault, FileId as InputFile};
use cell_io::{Words, read_words};
use hunt_command::{Fault, FileId, Form, form_of};

/// Why nothing was done, and what is said behind that.
#[derive(Clone, Copy)]
pub struct Refusal {
    pub fault: Fault,
    pub reason: &'static str,
}

/// Whether the word at a place is this name.
fn is_at(texts: &[String], place: usize, name: Option<&str>) -> bool {
    match (texts.get(place), name) {
        (Some(word), Some(name)) => word.as_str() == name,
        _ => false,
    }
}

/// Which file can't be read, where the word at a place isn't UTF-8: the one that it names, and the machine file where it names none of the three
/// that are read.
fn unread_at(texts: &[String], place: usize) -> Fault
    ensures { result ≢ Fault.Usage }
{
    let (machine, expect, pass) = names_of(texts);
    let is_other = !is_at(texts, place, machine);
    if is_other && is_at(texts, place, expect) {
        Fault::ReadFault {
            file: FileId::Expect,
        }
    } else if is_other && is_at(texts, place, pass) {
        Fault::ReadFault { file: FileId::Pass }
    } else {
        Fault::Machine(InputFault::ReadFault {
            file: InputFile::Machine,
        })
    }
}

/// Why words are refused of which the one at this place is the first that isn't UTF-8. The texts have U+FFFD for what isn't, which stands in no
/// form's own words and in no number: so where they are a form it is a file's name, or beside `--help` any word.
fn refusal_of(texts: &[String], place: usize) -> Refusal
    ensures { (spoken (map string_bytes texts.now) ≡ no_form) ↔ (result.fault ≡ Fault.Usage) }
{
    if matches!(form_of(texts), Form::NoForm) {
        return Refusal {
            fault: Fault::Usage,
            reason: "",
        };
    }
    Refusal {
        fault: unread_at(texts, place),
        reason: ": the name of a file is not UTF-8",
    }
}

/// The words behind the program's name, where all are UTF-8.
pub fn words_of(rt: &HostRuntime) -> Result<Vec<String>, Refusal> {
    let Ok(Words { texts, not_utf8 }) = read_words(rt, rt.alloc()) else {
        return Err(Refusal {
            fault: Fault::Memory,
            reason: "",
        });
    };
    match not_utf8 {
        None => Ok(texts),
        Some(place) => Err(refusal_of(texts.as_slice(), place)),
    }
}

/// The file that ends a hunt once it is there, where words name one.
pub fn until_of(words: &[String]) -> Option<&str> {
    match form_of(words) {
        Form::Hunt(hunt) => hunt.until,
        _ => None,
    }
}

/// For how many seconds a hunt may run, where words say so.
pub fn time_of(words: &[String]) -> Option<u32> {
    match form_of(words) {
        Form::Hunt(hunt) => hunt.time,
        _ => None,
    }
}

/// The machine file, the expectation file and the pass file that words name.
fn names_of(words: &[String]) -> (Option<&str>, Option<&str>, Option<&str>) {
    match form_of(words) {
        Form::Hunt(hunt) => (Some(hunt.machine), hunt.expect, hunt.pass),
        Form::Each { machine, .. } | Form::Record { machine, .. } => (Some(machine), None, None),
        Form::Help | Form::NoForm => (None, None, None),
    }
}

/// The name of the file that a refusal speaks of, where the words have it.
pub fn name_behind(words: &[String], fault: Fault) -> Option<&str> {
    let (machine, expect, pass) = names_of(words);
    match fault {
        Fault::Machine(
            InputFault::ReadFault {
                file: InputFile::Machine,
            },
        ) => machine,
        Fault::ReadFault {
            file: FileId::Expect,
        } => expect,
        Fault::ReadFault { file: FileId::Pass } => pass,
        _ => None,
    }
}
