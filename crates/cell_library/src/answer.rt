//! What is answered: a text, and the exit status.

ghost use Rattle.std.specs.Prelude.{◌≡◌, ◌++◌, IfOk, IfSome, Some, codes};
ghost use Rattle.cell_library.specs.Answers.{IsShort, Refuses, text_of, told_line};

use std::alloc::{AllocError, Global};
use std::fmt::Display;

/// The status of want of memory.
const SHORT: u8 = 7;

/// What is said where there is no memory.
const OUT_OF_MEMORY: &[u8] = b"cell: out of memory\n";

/// A text, None where memory was short, and the exit status.
#[derive(Drop)]
pub struct Answer {
    text: Option<Vec<u8>>,
    code: u8,
}

/// What a program tells, in a line behind its name.
fn line_with(alloc: Global, program: &str, told: &str) -> Result<Vec<u8>, AllocError>
    ensures { IfOk result (λ text. text.items ≡ program.now ++ codes ": " ++ told.now) }
{
    let mut line = program.as_bytes().to_vec(alloc)?;
    line.extend_from_slice(b": ")?;
    line.extend_from_slice(told.as_bytes())?;
    Ok(line)
}

/// The line of a refusal by a program.
fn line_of<F: Display + Drop>(alloc: Global, program: &str, fault: F) -> Result<Vec<u8>, AllocError>
    ensures { IfOk result (λ text. IfSome (F.Display.output fault) (λ told. text.items ≡ told_line program.now told)) }
{
    let told = format!(in alloc; "{fault}\n")?;
    line_with(alloc, program, told.as_str())
}

impl Answer {
    pub fn new(text: Vec<u8>, code: u8) -> Answer
        ensures { result ≡ record { text = Some text; code = code } }
    {
        Answer {
            text: Some(text),
            code,
        }
    }

    /// There is no memory.
    pub fn short() -> Answer
        ensures { IsShort result }
    {
        Answer {
            text: None,
            code: SHORT,
        }
    }

    /// A program does nothing, for this fault: its name, and the fault's text.
    pub fn refusal<F: Display + Drop>(alloc: Global, program: &str, fault: F, code: u8) -> Answer
        ensures { IfSome (F.Display.output fault) (λ told. Refuses program.now told code result) }
    {
        match line_of(alloc, program, fault) {
            Ok(text) => Answer::new(text, code),
            Err(_) => Answer::short(),
        }
    }

    /// What is told.
    pub fn text(&self) -> &[u8]
        ensures { result.now ≡ text_of self.now }
    {
        match &self.text {
            Some(text) => text.as_slice(),
            None => OUT_OF_MEMORY,
        }
    }

    /// The exit status.
    pub fn code(&self) -> u8
        ensures { result ≡ self.now.code }
    {
        self.code
    }
}
