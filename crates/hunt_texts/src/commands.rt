//! The commands that show a run, as a user types them into a shell.

ghost use Rattle.std.specs.Prelude.{◌≡◌, ◌==◌, ◌++◌, codes, OnOk, IfOk};
ghost use Rattle.std.specs.List.{list_all, list_any};
ghost use Rattle.hunt_texts.specs.About.{facts};
ghost use Rattle.hunt_texts.specs.Commands.{is_plain, quoted_byte, quoted, shell_word, seed_option, tool_path, command, command_line};

use crate::about::About;
use crate::numbers::put_number;
use std::alloc::{AllocError, Global};

/// Whether a byte is a punctuation mark that has no meaning to a shell.
fn is_plain_mark(b: u8) -> bool
    ensures { result ≡ list_any (λ c. c == b) (codes "@%+=:,./-_") }
{
    b"@%+=:,./-_".contains(&b)
}

/// Whether a byte has no meaning to a shell.
fn is_plain(b: u8) -> bool
    ensures { result ≡ is_plain b }
{
    b.is_ascii_alphanumeric() || is_plain_mark(b)
}

/// Whether no byte of a word has a meaning to a shell.
fn are_plain(word: &[u8]) -> bool
    ensures { result ≡ list_all is_plain word.now }
{
    word.iter().all(|b| is_plain(*b))
}

fn put_quoted_byte(out: &mut Vec<u8>, b: u8) -> Result<(), AllocError>
    ensures { OnOk result (out.new.items ≡ out.old.items ++ quoted_byte b) }
{
    if b == b'\'' {
        return out.extend_from_slice(b"'\"'\"'");
    }
    out.push(b)?;
    Ok(())
}

/// Writes a word in single quotes.
#[tactic(auto, unfolding(crate::specs::Commands::quoted))]
fn put_quoted(out: &mut Vec<u8>, word: &[u8]) -> Result<(), AllocError>
    ensures { OnOk result (out.new.items ≡ out.old.items ++ quoted word.now) }
{
    out.push(b'\'')?;
    for b in word {
        put_quoted_byte(out, *b)?;
    }
    out.push(b'\'')?;
    Ok(())
}

/// Writes a word as a shell reads it.
fn put_shell_word(out: &mut Vec<u8>, word: &[u8]) -> Result<(), AllocError>
    ensures { OnOk result (out.new.items ≡ out.old.items ++ shell_word word.now) }
{
    if !word.is_empty() && are_plain(word) {
        return out.extend_from_slice(word);
    }
    put_quoted(out, word)
}

/// Writes the option for the seed, unless it is the default.
#[tactic(auto, unfolding(crate::specs::Commands::seed_option))]
fn put_seed_option(out: &mut Vec<u8>, seed: u64) -> Result<(), AllocError>
    ensures { OnOk result (out.new.items ≡ out.old.items ++ seed_option seed) }
{
    if seed == 1 {
        return Ok(());
    }
    out.extend_from_slice(b" --seed ")?;
    put_number(out, seed)
}

/// The path of a tool.
#[tactic(auto, unfolding(crate::specs::Commands::tool_path))]
fn tool_path(alloc: Global, tools: &[u8], tool: &[u8]) -> Result<Vec<u8>, AllocError>
    ensures { IfOk result (λ path. path.items ≡ tool_path tools.now tool.now) }
{
    let mut path = Vec::from_slice(alloc, tools)?;
    path.push(b'/')?;
    path.extend_from_slice(tool)?;
    Ok(path)
}

/// Writes the call of a tool for a run.
#[tactic(auto, unfolding(crate::specs::Commands::command))]
pub fn put_command(
    out: &mut Vec<u8>,
    about: &About,
    tool: &[u8],
    run: u64,
) -> Result<(), AllocError>
    ensures { OnOk result (out.new.items ≡ out.old.items ++ command (facts about.now) tool.now run) }
{
    let path = tool_path(*out.allocator(), about.tools, tool)?;
    put_shell_word(out, path.as_slice())?;
    out.extend_from_slice(b" --run ")?;
    put_number(out, run)?;
    put_seed_option(out, about.seed)?;
    out.push(b' ')?;
    put_shell_word(out, about.machine)
}

/// Writes the line of a command.
#[tactic(auto, unfolding(crate::specs::Commands::command_line))]
pub fn put_command_line(
    out: &mut Vec<u8>,
    purpose: &[u8],
    about: &About,
    tool: &[u8],
    run: u64,
) -> Result<(), AllocError>
    ensures { OnOk result (out.new.items ≡ out.old.items ++ command_line purpose.now (facts about.now) tool.now run) }
{
    out.extend_from_slice(purpose)?;
    put_command(out, about, tool, run)?;
    out.push(b'\n')?;
    Ok(())
}
