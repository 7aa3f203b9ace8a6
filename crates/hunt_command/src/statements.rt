//! The statements of the lines of a source, as findings show them.

ghost use Rattle.std.specs.Prelude.{◌≡◌, ◌++◌, ◌∷◌, [], IfOk, OnOk};
ghost use Rattle.hunt_reports.specs.Lists.{bytes_in};
ghost use Rattle.hunt_command.specs.Statements.{is_margin, without_front, without_back, statement_in, statements_in};

use cell_base::line_text::{before_comment, first_line};
use std::alloc::{AllocError, Global};

/// Whether a byte is a space, a tab or a carriage return.
fn is_margin(b: u8) -> bool
    ensures { result ≡ is_margin b }
{
    b == b' ' || b == b'\t' || b == b'\r'
}

#[tactic(auto, unfolding(crate::specs::Statements::without_front))]
fn without_front(text: &[u8]) -> &[u8]
    ensures { result.now ≡ without_front text.now }
{
    let mut rest = text;
    while let Some((b, after)) = rest.split_first() {
        if !is_margin(*b) {
            return rest;
        }
        rest = after;
    }
    rest
}

fn without_back(text: &[u8]) -> &[u8]
    ensures { result.now ≡ without_back text.now }
{
    let mut end = text.len();
    while end > 0 {
        if is_margin(text[end - 1]) {
            end -= 1;
        } else {
            return &text[..end];
        }
    }
    &[]
}

/// A line up to its comment, without blanks at both ends.
fn statement_in(line: &[u8]) -> &[u8]
    ensures { result.now ≡ statement_in line.now }
{
    without_back(without_front(before_comment(line)))
}

/// Adds the statement of a line.
fn add_statement(
    alloc: Global,
    statements: &mut Vec<Vec<u8>>,
    line: &[u8],
) -> Result<(), AllocError>
    ensures { OnOk result (bytes_in statements.new.items ≡ bytes_in statements.old.items ++ statement_in line.now ∷ []) }
{
    let statement = Vec::from_slice(alloc, statement_in(line))?;
    statements.push(statement)?;
    Ok(())
}

/// The statements of the lines of a text.
pub fn statements_in(alloc: Global, text: &[u8]) -> Result<Vec<Vec<u8>>, AllocError>
    ensures { IfOk result (λ v. bytes_in v.items ≡ statements_in text.now) }
{
    let mut statements = Vec::new(alloc);
    let mut rest = text;
    while !rest.is_empty() {
        let (line, after) = first_line(rest);
        add_statement(alloc, &mut statements, line)?;
        rest = after;
    }
    Ok(statements)
}
