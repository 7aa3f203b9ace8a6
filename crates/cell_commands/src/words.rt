//! The words of the command line.

ghost use Rattle.std.specs.Prelude.{◌≡◌, map, string_bytes};
ghost use Rattle.cell_base.specs.Numbers.{decimal_number};
ghost use Rattle.cell_commands.specs.Words.{spoken, said, gen_said, permute_said};

use cell_base::line_text::number_at;

/// What the words ask for, by their places; a word that begins with `-` is a plain word.
#[derive(Clone, Copy)]
pub enum Form<'a> {
    Run {
        machine: &'a str,
    },
    Check {
        machine: &'a str,
        record_file: &'a str,
    },
    Asm {
        source: &'a str,
    },
    Gen {
        n: u32,
    },
    Debug {
        machine: &'a str,
        script: &'a str,
    },
    Permute {
        machine: &'a str,
        record_file: &'a str,
        n: u32,
    },
    NoForm,
}

/// The number that a word is in decimal, without a leading zero.
pub fn number_of(word: &str) -> Option<u32>
    ensures { result ≡ decimal_number word.now }
{
    let (n, rest) = number_at(word.as_bytes(), u32::MAX)?;
    rest.is_empty().then_some(n)
}

/// The form `gen` with this word, where it is a number.
fn gen_form(word: &str) -> Form<'_>
    ensures { said result ≡ gen_said (decimal_number word.now) }
{
    match number_of(word) {
        Some(n) => Form::Gen { n },
        None => Form::NoForm,
    }
}

/// The form `permute` with these words, where the last is a number.
fn permute_form<'a>(machine: &'a str, record_file: &'a str, word: &str) -> Form<'a>
    ensures { said result ≡ permute_said machine.now record_file.now (decimal_number word.now) }
{
    match number_of(word) {
        Some(n) => Form::Permute {
            machine,
            record_file,
            n,
        },
        None => Form::NoForm,
    }
}

/// The form of the words.
pub fn form_of(words: &[String]) -> Form<'_>
    ensures { said result ≡ spoken (map string_bytes words.now) }
{
    match words {
        [form, machine] if form.as_str() == "run" => Form::Run {
            machine: machine.as_str(),
        },
        [form, machine, record_file] if form.as_str() == "check" => Form::Check {
            machine: machine.as_str(),
            record_file: record_file.as_str(),
        },
        [form, machine, script] if form.as_str() == "debug" => Form::Debug {
            machine: machine.as_str(),
            script: script.as_str(),
        },
        [form, source] if form.as_str() == "asm" => Form::Asm {
            source: source.as_str(),
        },
        [form, number] if form.as_str() == "gen" => gen_form(number.as_str()),
        [form, machine, record_file, number] if form.as_str() == "permute" => {
            permute_form(machine.as_str(), record_file.as_str(), number.as_str())
        }
        _ => Form::NoForm,
    }
}
