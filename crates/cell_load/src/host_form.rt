// What the words of a line of the host or of a signal register's mode say.
ghost use Rattle.std.specs.Prelude.{◌≡◌, ◌≤◌, length};
ghost use Rattle.cell_base.specs.Bytes.{put, zeros};
ghost use Rattle.cell_base.specs.Words.{words_in};
ghost use Rattle.cell_load.specs.Entries.{entry_of};
ghost use Rattle.cell_load.specs.Form.{Gives, byte_in, only_processor, send_says, take_says, take_intr_says, await_says, signal_says, store_of, store_says, action_says, host_line, mode_line};

use crate::form::{ended, hex_in, number_in};
use crate::line::{Line, Refusal};
use cell_base::line_text::next_word;
use cell_host::HostAction;
use std::alloc::Global;

/// A number of one byte, as that of a processor, and what stands behind it.
#[tactic(auto, unfolding(crate::specs::Form::byte_in))]
fn byte_in(words: &[u8]) -> Result<(u8, &[u8]), Refusal>
    ensures { Gives (λ x. (x.0, words_in x.1.now)) result (byte_in (words_in words.now)) }
{
    let (n, rest) = number_in(words)?;
    if n < 256 {
        Ok((n as u8, rest))
    } else {
        Err(Refusal::Form)
    }
}

/// The number of a processor, behind which nothing stands.
#[tactic(auto, unfolding(crate::specs::Form::only_processor))]
fn only_processor(words: &[u8]) -> Result<u8, Refusal>
    ensures { Gives (λ x. x) result (only_processor (words_in words.now)) }
{
    let (spe, rest) = byte_in(words)?;
    ended(rest)?;
    Ok(spe)
}

#[tactic(auto, unfolding(crate::specs::Form::send_says))]
fn send_says(words: &[u8]) -> Result<HostAction, Refusal>
    ensures { Gives (λ x. x) result (send_says (words_in words.now)) }
{
    let (spe, rest) = byte_in(words)?;
    let (value, rest) = number_in(rest)?;
    ended(rest)?;
    Ok(HostAction::Send { spe, value })
}

#[tactic(auto, unfolding(crate::specs::Form::take_says))]
fn take_says(words: &[u8]) -> Result<HostAction, Refusal>
    ensures { Gives (λ x. x) result (take_says (words_in words.now)) }
{
    let spe = only_processor(words)?;
    Ok(HostAction::Take { spe })
}

#[tactic(auto, unfolding(crate::specs::Form::take_intr_says))]
fn take_intr_says(words: &[u8]) -> Result<HostAction, Refusal>
    ensures { Gives (λ x. x) result (take_intr_says (words_in words.now)) }
{
    let spe = only_processor(words)?;
    Ok(HostAction::TakeIntr { spe })
}

#[tactic(auto, unfolding(crate::specs::Form::await_says))]
fn await_says(words: &[u8]) -> Result<HostAction, Refusal>
    ensures { Gives (λ x. x) result (await_says (words_in words.now)) }
{
    let spe = only_processor(words)?;
    Ok(HostAction::Await { spe })
}

#[tactic(auto, unfolding(crate::specs::Form::signal_says))]
fn signal_says(words: &[u8]) -> Result<HostAction, Refusal>
    ensures { Gives (λ x. x) result (signal_says (words_in words.now)) }
{
    let (spe, rest) = byte_in(words)?;
    let (register, rest) = byte_in(rest)?;
    let (value, rest) = number_in(rest)?;
    ended(rest)?;
    Ok(HostAction::Signal {
        spe,
        register,
        value,
    })
}

/// These bytes, and zeros behind them.
#[tactic(auto, unfolding(cell_base::specs::Bytes::zeros))]
fn padded(bytes: &[u8]) -> [u8; 16]
    requires { length bytes.now ≤ 16 }
    ensures { result ≡ put (zeros 16) 0 bytes.now }
{
    let mut padded = [0; 16];
    padded[0..bytes.len()].copy_from_slice(bytes);
    padded
}

/// The action that stores these bytes, if it can hold them.
fn store_of(at: u32, bytes: &[u8]) -> Result<HostAction, Refusal>
    ensures { Gives (λ x. x) result (store_of at bytes.now) }
{
    if bytes.len() > 16 {
        return Err(Refusal::Form);
    }
    Ok(HostAction::Store {
        ea: at,
        len: bytes.len() as u8,
        bytes: padded(bytes),
    })
}

#[tactic(auto, unfolding(crate::specs::Form::store_says))]
fn store_says(alloc: Global, words: &[u8]) -> Result<HostAction, Refusal>
    ensures { Gives (λ x. x) result (store_says (words_in words.now)) }
{
    let (at, rest) = number_in(words)?;
    let (bytes, rest) = hex_in(alloc, rest)?;
    ended(rest)?;
    store_of(at, &bytes)
}

#[tactic(auto, unfolding(crate::specs::Form::action_says))]
fn action_says(alloc: Global, words: &[u8]) -> Result<HostAction, Refusal>
    ensures { Gives (λ x. x) result (action_says (words_in words.now)) }
{
    let Some((word, rest)) = next_word(words) else {
        return Err(Refusal::Form);
    };
    if word == b"send".as_slice() {
        send_says(rest)
    } else if word == b"take".as_slice() {
        take_says(rest)
    } else if word == b"takeintr".as_slice() {
        take_intr_says(rest)
    } else if word == b"await".as_slice() {
        await_says(rest)
    } else if word == b"store".as_slice() {
        store_says(alloc, rest)
    } else if word == b"signal".as_slice() {
        signal_says(rest)
    } else {
        Err(Refusal::Form)
    }
}

#[tactic(auto, unfolding(crate::specs::Form::host_line))]
pub(crate) fn host_line(alloc: Global, words: &[u8]) -> Result<Line, Refusal>
    ensures { Gives entry_of result (host_line (words_in words.now)) }
{
    let action = action_says(alloc, words)?;
    Ok(Line::Host { action })
}

#[tactic(auto, unfolding(crate::specs::Form::mode_line))]
pub(crate) fn mode_line(words: &[u8]) -> Result<Line, Refusal>
    ensures { Gives entry_of result (mode_line (words_in words.now)) }
{
    let (spe, rest) = byte_in(words)?;
    let (register, rest) = byte_in(rest)?;
    ended(rest)?;
    Ok(Line::OrMode { spe, register })
}
