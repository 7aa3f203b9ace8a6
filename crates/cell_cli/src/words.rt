//! The words of the command line, and why they are refused where one isn't UTF-8: std opens files by names in UTF-8 alone.

ghost use Rattle.std.specs.Prelude.{◌≡◌, map, string_bytes};
ghost use Rattle.cell_commands.specs.Words.{spoken, no_form};

use cell_commands::{Fault, FileId, Form, form_of};
use cell_io::{Words, read_words};

/// Why nothing was done, and what is said behind that.
#[derive(Clone, Copy)]
pub struct Refusal {
    pub fault: Fault,
    pub reason: &'static str,
}

/// A file of this kind has a name that isn't UTF-8.
fn unreadable(file: FileId) -> Refusal {
    Refusal {
        fault: Fault::ReadFault { file },
        reason: ": its name is not UTF-8",
    }
}

/// Why words are refused of which the one at this place is the first that isn't UTF-8. The texts have U+FFFD for what isn't, which stands in no form's
/// own words and in no number.
fn refusal_of(texts: &[String], place: usize) -> Refusal
    ensures { spoken (map string_bytes texts.now) ≡ no_form → result.fault ≡ Fault.Usage }
{
    match form_of(texts) {
        Form::NoForm | Form::Gen { .. } => Refusal {
            fault: Fault::Usage,
            reason: "",
        },
        Form::Asm { .. } => unreadable(FileId::Source(0)),
        _ if place == 1 => unreadable(FileId::Machine),
        Form::Debug { .. } => unreadable(FileId::Script),
        _ => unreadable(FileId::Rec),
    }
}

/// The words behind the program's name, where all are UTF-8.
pub fn words_of(rt: &HostRuntime) -> Result<Vec<String>, Refusal> {
    let Ok(Words { texts, not_utf8 }) = read_words(rt, rt.alloc()) else {
        return Err(Refusal {
            fault: Fault::Memory,
            reason: "",
        });
    };
    match not_utf8 {
        None => Ok(texts),
        Some(place) => Err(refusal_of(texts.as_slice(), place)),
    }
}
