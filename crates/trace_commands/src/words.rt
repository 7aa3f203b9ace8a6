//! The words of the command line.

ghost use Rattle.std.specs.Prelude.{◌≡◌, map, string_bytes};
ghost use Rattle.cell_base.specs.Numbers.{decimal_number};
ghost use Rattle.trace_commands.specs.Words.{spoken, said, asked_by, one_said, file_said, before_said, states_said, go_said};

use cell_commands::number_of;

/// What is asked of the run that a record has.
#[derive(Clone, Copy)]
pub enum Ask {
    /// What each step does.
    Effects,
    /// What each step changes.
    Log,
    /// The states after all steps.
    States,
    /// The places that are ordered before each step.
    BeforeEach,
    /// The states and the flow controllers behind the first so many steps.
    Flows { steps: u32 },
    /// The places that are ordered before one place, counted from 0.
    Before { place: u32 },
}

/// What the words ask for, by their places.
#[derive(Clone, Copy)]
pub enum Form<'a> {
    /// A run to its end, in which the actors take turns; its record and its states.
    Alone {
        machine: &'a str,
    },
    /// The record of the run that the numbers of a file choose.
    Choose {
        machine: &'a str,
        choices: &'a str,
    },
    Ask {
        machine: &'a str,
        record_file: &'a str,
        ask: Ask,
    },
    /// What further steps do, behind the first so many of a record, which the numbers of a file choose; then how the machine stands.
    Go {
        machine: &'a str,
        record_file: &'a str,
        steps: u32,
        choices: &'a str,
    },
    /// Where the lines of a source stand.
    Lines {
        source: &'a str,
    },
    /// The lines of a machine file that have words.
    Plan {
        machine: &'a str,
    },
    NoForm,
}

/// The form `before` with this word, where it is a number.
fn before_form<'a>(machine: &'a str, record_file: &'a str, word: &str) -> Form<'a>
    ensures { said result ≡ before_said machine.now record_file.now (decimal_number word.now) }
{
    match number_of(word) {
        Some(place) => Form::Ask {
            machine,
            record_file,
            ask: Ask::Before { place },
        },
        None => Form::NoForm,
    }
}

/// The form `states` with this word, where it is a number.
fn states_form<'a>(machine: &'a str, record_file: &'a str, word: &str) -> Form<'a>
    ensures { said result ≡ states_said machine.now record_file.now (decimal_number word.now) }
{
    match number_of(word) {
        Some(steps) => Form::Ask {
            machine,
            record_file,
            ask: Ask::Flows { steps },
        },
        None => Form::NoForm,
    }
}

/// The form `go` with this word, where it is a number.
fn go_form<'a>(machine: &'a str, record_file: &'a str, word: &str, choices: &'a str) -> Form<'a>
    ensures { said result ≡ go_said machine.now record_file.now (decimal_number word.now) choices.now }
{
    match number_of(word) {
        Some(steps) => Form::Go {
            machine,
            record_file,
            steps,
            choices,
        },
        None => Form::NoForm,
    }
}

/// What is asked of a record's run by a word alone.
fn ask_of(word: &str) -> Option<Ask>
    ensures { result ≡ asked_by word.now }
{
    match word {
        "effects" => Some(Ask::Effects),
        "log" => Some(Ask::Log),
        "states" => Some(Ask::States),
        "before" => Some(Ask::BeforeEach),
        _ => None,
    }
}

/// The form of a word with one file.
fn one_form<'a>(form: &str, file: &'a str) -> Form<'a>
    ensures { said result ≡ one_said form.now file.now }
{
    match form {
        "alone" => Form::Alone { machine: file },
        "lines" => Form::Lines { source: file },
        "plan" => Form::Plan { machine: file },
        _ => Form::NoForm,
    }
}

/// The form of a word with a machine file and another file.
fn file_form<'a>(form: &str, machine: &'a str, file: &'a str) -> Form<'a>
    ensures { said result ≡ file_said form.now machine.now file.now }
{
    if form == "choose" {
        return Form::Choose {
            machine,
            choices: file,
        };
    }
    match ask_of(form) {
        Some(ask) => Form::Ask {
            machine,
            record_file: file,
            ask,
        },
        None => Form::NoForm,
    }
}

/// The form of the words.
pub fn form_of(words: &[String]) -> Form<'_>
    ensures { said result ≡ spoken (map string_bytes words.now) }
{
    match words {
        [form, file] => one_form(form.as_str(), file.as_str()),
        [form, machine, file] => file_form(form.as_str(), machine.as_str(), file.as_str()),
        [form, machine, record_file, number] if form.as_str() == "before" => {
            before_form(machine.as_str(), record_file.as_str(), number.as_str())
        }
        [form, machine, record_file, number] if form.as_str() == "states" => {
            states_form(machine.as_str(), record_file.as_str(), number.as_str())
        }
        [form, machine, record_file, number, choices] if form.as_str() == "go" => go_form(
            machine.as_str(),
            record_file.as_str(),
            number.as_str(),
            choices.as_str(),
        ),
        _ => Form::NoForm,
    }
}
