//! The lines of the steps of a run, with what they do.

ghost use Rattle.std.specs.Prelude.{◌≡◌, ◌++◌, [], ◌∷◌, ◌+◌, ◌==◌, if◌then◌else◌, codes, length, OnOk, IfOk, is_some};
ghost use Rattle.std.specs.Option.{option_map_or};
ghost use Rattle.cell_base.specs.Records.{field, line_feed, step_line};
ghost use Rattle.cell_trace.specs.Fields.{named, bit, atomic_field};
ghost use Rattle.cell_trace.specs.Effects.{place_word, span_field, spans, tags_field, channel_fields, done_fields, own_fields, value_of, mailbox_name, mail_field, deliver_field, signal_fields, note_fields, step_words, told_fields, effect_line, line_in, lines_in, refused_in, grown, Makes};
ghost use Rattle.cell_machine.specs.Run.{next_of};
ghost use Rattle.cell_trace.specs.Fields.{word};

use crate::fields::{
    put_atomic, put_command, put_named, put_number, put_slot, put_status, put_word,
};
use crate::looking::{After, Before, look_after, look_before};
use cell_base::{ChannelOp, Step};
use cell_channels::{MFC_WR_TAG_MASK, MFC_WR_TAG_UPDATE};
use cell_machine::{Effect, Machine, Note, Place, Span};
use cell_report::put_step;
use std::alloc::AllocError;

/// The numbers of the mailboxes in a note; the third is the outbound interrupt mailbox.
const INBOUND: u8 = 0;

const OUTBOUND: u8 = 1;

fn put_place(out: &mut Vec<u8>, place: Place) -> Result<(), AllocError>
    ensures { OnOk result (out.new.items ≡ out.old.items ++ place_word place) }
{
    match place {
        Place::Memory => put_word(out, b"mem"),
        Place::Local(spe) => put_number(out, u32::from(spe)),
    }
}

/// Writes the field of a span, where it has bytes.
fn put_span(out: &mut Vec<u8>, name: &[u8], span: Span) -> Result<(), AllocError>
    ensures { OnOk result (out.new.items ≡ out.old.items ++ span_field name.now span) }
{
    if span.len == 0 {
        return Ok(());
    }
    put_named(out, name, &[])?;
    put_place(out, span.place)?;
    put_number(out, span.at)?;
    put_number(out, span.len)
}

#[tactic(auto, unfolding(crate::specs::Effects::spans))]
fn put_spans(out: &mut Vec<u8>, effect: &Effect) -> Result<(), AllocError>
    ensures { OnOk result (out.new.items ≡ out.old.items ++ spans effect.now) }
{
    put_span(out, b"fetch", effect.fetch)?;
    put_span(out, b"read", effect.reads)?;
    put_span(out, b"write", effect.writes)
}

/// Writes the mask that is set, or the request that is made.
fn put_tags(out: &mut Vec<u8>, ch: u8, value: u32, mask: u32) -> Result<(), AllocError>
    ensures { OnOk result (out.new.items ≡ out.old.items ++ tags_field ch value mask) }
{
    if ch == MFC_WR_TAG_MASK {
        put_named(out, b"mask", &[value])
    } else if ch == MFC_WR_TAG_UPDATE {
        put_named(out, b"request", &[value, mask])
    } else {
        Ok(())
    }
}

/// Writes what passed through a channel.
fn put_channel(out: &mut Vec<u8>, after: &After, asked: ChannelOp) -> Result<(), AllocError>
    ensures { OnOk result (out.new.items ≡ out.old.items ++ channel_fields after.now asked) }
{
    match asked {
        ChannelOp::Read { ch, .. } => put_named(out, b"rdch", &[u32::from(ch), after.passed]),
        ChannelOp::Count { ch, .. } => put_named(out, b"rchcnt", &[u32::from(ch), after.passed]),
        ChannelOp::Write { ch, .. } => {
            put_named(out, b"wrch", &[u32::from(ch), after.passed])?;
            put_tags(out, ch, after.passed, after.mask)
        }
    }
}

/// The same, where a channel was asked for.
fn put_asked(out: &mut Vec<u8>, before: &Before, after: &After) -> Result<(), AllocError>
    ensures { OnOk result (out.new.items ≡ out.old.items ++ option_map_or (channel_fields after.now) before.now.asked []) }
{
    match before.asked {
        Some(asked) => put_channel(out, after, asked),
        None => Ok(()),
    }
}

/// Writes the atomic command that was done.
fn put_done(out: &mut Vec<u8>, before: &Before, after: &After) -> Result<(), AllocError>
    ensures { OnOk result (out.new.items ≡ out.old.items ++ option_map_or (done_fields after.now) before.now.atomic []) }
{
    match before.atomic {
        Some(atomic) => {
            put_atomic(out, atomic)?;
            put_status(out, after.status)
        }
        None => Ok(()),
    }
}

/// Writes what the step's processor did.
#[tactic(auto, unfolding(crate::specs::Effects::own_fields))]
fn put_own(out: &mut Vec<u8>, before: &Before, after: &After) -> Result<(), AllocError>
    ensures { OnOk result (out.new.items ≡ out.old.items ++ own_fields before.now after.now) }
{
    put_asked(out, before, after)?;
    put_done(out, before, after)
}

/// The value that goes through a mailbox.
fn value_of(before: &Before, after: &After) -> u32
    ensures { result ≡ value_of before.now after.now }
{
    match before.asked {
        Some(_) => after.passed,
        None => before.value,
    }
}

fn put_mailbox(out: &mut Vec<u8>, mailbox: u8) -> Result<(), AllocError>
    ensures { OnOk result (out.new.items ≡ out.old.items ++ word (mailbox_name mailbox)) }
{
    if mailbox == INBOUND {
        put_word(out, b"in")
    } else if mailbox == OUTBOUND {
        put_word(out, b"out")
    } else {
        put_word(out, b"intr")
    }
}

/// Writes a value of a mailbox.
fn put_mail(
    out: &mut Vec<u8>,
    name: &[u8],
    spe: u8,
    mailbox: u8,
    value: u32,
) -> Result<(), AllocError>
    ensures { OnOk result (out.new.items ≡ out.old.items ++ mail_field name.now spe mailbox value) }
{
    put_named(out, name, &[u32::from(spe)])?;
    put_mailbox(out, mailbox)?;
    put_number(out, value)
}

/// Writes the value that a piece or the host delivers.
fn put_delivered(out: &mut Vec<u8>, before: &Before) -> Result<(), AllocError>
    ensures { OnOk result (out.new.items ≡ out.old.items ++ deliver_field before.now) }
{
    match before.asked {
        Some(_) => Ok(()),
        None => put_named(out, b"deliver", &[before.value]),
    }
}

/// Writes a value of a signal register.
fn put_signal(out: &mut Vec<u8>, spe: u8, register: u8, before: &Before) -> Result<(), AllocError>
    ensures { OnOk result (out.new.items ≡ out.old.items ++ signal_fields spe register before.now) }
{
    put_named(out, b"signal", &[u32::from(spe), u32::from(register)])?;
    put_delivered(out, before)
}

/// Writes what a note tells.
#[tactic(auto, unfolding(crate::specs::Effects::note_fields))]
fn put_note(out: &mut Vec<u8>, note: Note, before: &Before, after: &After) -> Result<(), AllocError>
    ensures { OnOk result (out.new.items ≡ out.old.items ++ note_fields note before.now after.now) }
{
    match note {
        Note::Nothing => Ok(()),
        Note::Issue { cmd, command } => {
            put_named(out, b"issue", &[])?;
            put_command(out, cmd, command)
        }
        Note::AtomicIssue => put_slot(out, after.slot),
        Note::TagRead { groups, issued } => put_named(out, b"tags", &[groups, issued]),
        Note::StallRead { groups } => put_named(out, b"stalls", &[groups]),
        Note::Ack { tag } => put_named(out, b"ack", &[tag]),
        Note::AtomicRead => put_named(out, b"atomicread", &[]),
        Note::Put { spe, mailbox } => put_mail(out, b"put", spe, mailbox, value_of(before, after)),
        Note::Take { spe, mailbox } => {
            put_mail(out, b"take", spe, mailbox, value_of(before, after))
        }
        Note::Ended => put_named(out, b"ended", &[]),
        Note::Awaited { spe } => put_named(out, b"awaited", &[u32::from(spe)]),
        Note::Element {
            number,
            parts,
            flagged,
        } => {
            let (number, parts) = (u32::from(number), u32::from(parts));
            put_named(
                out,
                b"element",
                &[number, parts, u32::from(flagged), before.ea, before.size],
            )
        }
        Note::Signal { spe, register } => put_signal(out, spe, register, before),
    }
}

/// Writes a step as its line in the record, without its end.
#[tactic(auto, unfolding(crate::specs::Effects::step_words))]
pub fn put_words(out: &mut Vec<u8>, step: Step) -> Result<(), AllocError>
    ensures { OnOk result (out.new.items ≡ out.old.items ++ step_words step) }
{
    put_step(out, step)?;
    out.pop();
    Ok(())
}

fn put_fixed(out: &mut Vec<u8>, fixed: bool) -> Result<(), AllocError>
    ensures { OnOk result (out.new.items ≡ out.old.items ++ (if fixed then named (codes "fixed") [] else [])) }
{
    if fixed {
        put_named(out, b"fixed", &[])
    } else {
        Ok(())
    }
}

/// Writes the fields of what passes through channels, and of the step's note.
#[tactic(auto, unfolding(crate::specs::Effects::told_fields))]
pub fn put_told(
    out: &mut Vec<u8>,
    effect: &Effect,
    before: &Before,
    after: &After,
) -> Result<(), AllocError>
    ensures { OnOk result (out.new.items ≡ out.old.items ++ told_fields effect.now before.now after.now) }
{
    put_own(out, before, after)?;
    put_note(out, effect.note, before, after)?;
    put_fixed(out, effect.fixed)
}

/// Writes the line of a step of this effect.
fn put_line(
    out: &mut Vec<u8>,
    step: Step,
    effect: &Effect,
    before: &Before,
    after: &After,
) -> Result<(), AllocError>
    ensures { OnOk result (out.new.items ≡ out.old.items ++ effect_line step effect.now before.now after.now) }
{
    put_words(out, step)?;
    put_spans(out, effect)?;
    put_told(out, effect, before, after)?;
    out.extend_from_slice(b"\n")
}

/// Makes a step and writes its line, and says whether it is allowed. Where it isn't, nothing is made or written. The only refusal is want of memory.
fn put_effect(out: &mut Vec<u8>, m: &mut Machine, step: Step) -> Result<bool, AllocError>
    ensures told { IfOk result (λ is_told. is_told ≡ is_some (line_in m.old step)) }
    ensures line { OnOk result (out.new.items ≡ out.old.items ++ option_map_or (λ line. line) (line_in m.old step) []) }
    ensures made { IfOk result (λ is_told. m.new ≡ (if is_told then grown m.old step else m.old)) }
    ensures allowed { IfOk result (λ is_told. is_told ≡ is_some (next_of m.old step)) }
{
    let Some(effect) = m.effect(step) else {
        return Ok(false);
    };
    let before = look_before(m, step, &effect);
    if m.step(step).is_err() {
        return Ok(false);
    }
    let after = look_after(m, step, before.asked);
    put_line(out, step, &effect, &before, &after)?;
    Ok(true)
}

/// Makes steps and writes their lines, up to the first that isn't allowed, which it answers. The only refusal is want of memory. It takes time and memory as
/// the steps are many.
pub fn put_effects(
    out: &mut Vec<u8>,
    m: &mut Machine,
    steps: &[Step],
) -> Result<Option<Step>, AllocError>
    ensures lines { OnOk result (out.new.items ≡ out.old.items ++ lines_in m.old steps.now) }
    ensures refused { IfOk result (λ refused. refused ≡ refused_in m.old steps.now) }
    ensures made { IfOk result (Makes m.old steps.now m.new) }
{
    for step in steps {
        if !put_effect(out, m, *step)? {
            return Ok(Some(*step));
        }
    }
    Ok(None)
}
