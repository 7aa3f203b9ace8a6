//! Which plain sets a step looks at, and which it goes into.

ghost use Rattle.std.specs.Prelude.{◌≡◌, ◌+◌, ◌*◌, ◌<◌, ◌++◌, length};
ghost use Rattle.race_order.specs.Counted.{Fits};
ghost use Rattle.race_order.specs.Roles.{step_reads, step_writes, line_of, line_roles, atomics_of, end_seen, slot_of, end_of};
ghost use Rattle.race_order.specs.Listed.{listed, IsBoxOf, note_reads_by, note_writes_by};

use crate::boxes::{Boxes, place};
use crate::roles::Role;
use cell_base::Step;
use cell_machine::{Effect, Note, Place, Span};

/// What the step looks at by its kind.
pub(crate) fn step_read(step: Step) -> Option<Role>
    ensures { listed result ≡ step_reads step }
{
    match step {
        Step::Exec { spe } => Some(Role::OfExec { spe }),
        Step::Piece { .. } => None,
        Step::Elem { .. } => None,
        Step::Retire { .. } => None,
        Step::Atomic { spe } => Some(Role::OfSlot { spe }),
        Step::Host => Some(Role::OfHost),
    }
}

/// What the step goes into by its kind.
pub(crate) fn step_write(step: Step) -> Option<Role>
    ensures { listed result ≡ step_writes step }
{
    match step {
        Step::Exec { spe } => Some(Role::OfExec { spe }),
        Step::Atomic { spe } => Some(Role::OfAtomic { spe }),
        Step::Host => Some(Role::OfHost),
        _ => None,
    }
}

fn atomics(step: Step) -> Option<Role>
    ensures { listed result ≡ atomics_of step }
{
    match step {
        Step::Exec { spe } => Some(Role::OfAtomic { spe }),
        _ => None,
    }
}

fn seen_end(spe: u8, step: Step) -> Option<Role>
    ensures { listed result ≡ end_seen spe step }
{
    match step {
        Step::Host => Some(Role::OfEnd { spe }),
        _ => None,
    }
}

fn slot(step: Step) -> Option<Role>
    ensures { listed result ≡ slot_of step }
{
    match step {
        Step::Exec { spe } => Some(Role::OfSlot { spe }),
        _ => None,
    }
}

fn own_end(step: Step) -> Option<Role>
    ensures { listed result ≡ end_of step }
{
    match step {
        Step::Exec { spe } => Some(Role::OfEnd { spe }),
        Step::Elem { spe, .. } => Some(Role::OfEnd { spe }),
        _ => None,
    }
}

fn put_box(boxes: &Boxes, spe: u8, mailbox: u8) -> Role
    requires { 3 * spe + mailbox < length boxes.now.puts.items }
    ensures { IsBoxOf boxes.now.puts.items spe mailbox result }
{
    Role::OfBox {
        spe,
        mailbox,
        place: place(boxes.puts.as_slice(), spe, mailbox),
    }
}

fn take_box(boxes: &Boxes, spe: u8, mailbox: u8) -> Role
    requires { 3 * spe + mailbox < length boxes.now.takes.items }
    ensures { IsBoxOf boxes.now.takes.items spe mailbox result }
{
    Role::OfBox {
        spe,
        mailbox,
        place: place(boxes.takes.as_slice(), spe, mailbox),
    }
}

/// What it looks at by its note.
pub(crate) fn note_read(boxes: &Boxes, step: Step, note: Note) -> Option<Role>
    requires { Fits boxes.now note }
    ensures { listed result ≡ note_reads_by boxes.now.puts.items boxes.now.takes.items step note }
{
    match note {
        Note::AtomicIssue => atomics(step),
        Note::AtomicRead => atomics(step),
        Note::Put { spe, mailbox } => Some(put_box(boxes, spe, mailbox)),
        Note::Take { spe, mailbox } => Some(take_box(boxes, spe, mailbox)),
        Note::Signal { spe, register } => Some(Role::OfSignal { spe, register }),
        Note::Awaited { spe } => seen_end(spe, step),
        _ => None,
    }
}

/// What it goes into by its note.
pub(crate) fn note_write(boxes: &Boxes, step: Step, note: Note) -> Option<Role>
    requires { Fits boxes.now note }
    ensures { listed result ≡ note_writes_by boxes.now.puts.items boxes.now.takes.items step note }
{
    match note {
        Note::AtomicIssue => slot(step),
        Note::Put { spe, mailbox } => Some(put_box(boxes, spe, mailbox)),
        Note::Take { spe, mailbox } => Some(take_box(boxes, spe, mailbox)),
        Note::Signal { spe, register } => Some(Role::OfSignal { spe, register }),
        Note::Ended => own_end(step),
        _ => None,
    }
}

fn line(span: &Span) -> Option<Role>
    ensures { listed result ≡ line_of span.now }
{
    match span.place {
        Place::Memory => {
            if span.len == 128 {
                Some(Role::OfLine { address: span.at })
            } else {
                None
            }
        }
        Place::Local(_) => None,
    }
}

/// The lines of memory that a step is on, where it moves them whole.
pub(crate) fn lines(whole: bool, effect: &Effect) -> (Option<Role>, Option<Role>)
    ensures { listed result.0 ++ listed result.1 ≡ line_roles whole effect.now }
{
    if whole {
        (line(&effect.reads), line(&effect.writes))
    } else {
        (None, None)
    }
}
