//! Lists of expressions.

ghost use Rattle.std.specs.Prelude.{◌≡◌, length, IfOk};
ghost use Rattle.std.specs.List.{All};
ghost use Rattle.std.specs.Option.{option_map};
ghost use Rattle.spu_asm.specs.Expressions.{IsOf};
ghost use Rattle.spu_asm.specs.Reading.{Within};
ghost use Rattle.spu_asm.specs.Statements.{expressions_of, expressions_among};

use crate::expressions::expression_at;
use crate::reading::mark_at;
use crate::syntax::Expression;
use spu_lex::Token;
use std::alloc::{AllocError, Global};

/// How many expressions with commas between the tokens are, one or more.
pub(crate) fn expression_count(text: &[u8], tokens: &[Token]) -> Option<usize>
    requires { Within text.now tokens.now }
    ensures { result ≡ option_map (λ es. length es) (expressions_of text.now tokens.now) }
{
    let mut count = 0;
    let mut rest = tokens;
    for _ in 0..tokens.len() {
        let (_, after) = expression_at(text, rest)?;
        count += 1;
        if after.is_empty() {
            return Some(count);
        }
        rest = mark_at(text, b',', after)?;
    }
    None
}

/// The expressions with commas between that the tokens are, or none where they are of another form.
pub(crate) fn expressions(
    alloc: Global,
    text: &[u8],
    tokens: &[Token],
) -> Result<Vec<Expression>, AllocError>
    requires { Within text.now tokens.now }
    ensures listed { IfOk result (λ v. v.items ≡ expressions_among text.now tokens.now) }
    ensures of { IfOk result (λ v. All (IsOf text.now) v.items) }
{
    let mut found = Vec::new(alloc);
    let mut rest = tokens;
    for _ in 0..tokens.len() {
        let Some((e, after)) = expression_at(text, rest) else {
            return Ok(Vec::new(alloc));
        };
        found.push(e)?;
        if after.is_empty() {
            return Ok(found);
        }
        let Some(next) = mark_at(text, b',', after) else {
            return Ok(Vec::new(alloc));
        };
        rest = next;
    }
    Ok(Vec::new(alloc))
}
