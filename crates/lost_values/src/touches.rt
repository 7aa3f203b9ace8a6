//! The values that a step sets or reads.

ghost use Rattle.std.specs.Prelude.{◌≡◌, ℕ, ◌↔◌, IsTrue, Some};
ghost use Rattle.cell_machine.specs.Effects.{effect_in};
ghost use Rattle.cell_machine.specs.Run.{Ran};
ghost use Rattle.lost_values.specs.declared.loss.LossKind.{LossKind as AKind};
ghost use Rattle.lost_values.specs.Failing.{Fails};
ghost use Rattle.lost_values.specs.Losses.{is_atomic_read as is_atomic_read_of, is_failed, is_instruction as is_instruction_step, is_store, is_tag_read as is_tag_read_of};
ghost use Rattle.lost_values.specs.Touches.{IsTouch, Leaves, is_signal, is_tag};

use crate::loss::LossKind;
use cell_base::Step;
use cell_machine::{Effect, Note, Setup};

/// A value that a step sets or reads.
#[derive(Clone, Copy)]
pub(crate) struct Touch {
    pub(crate) kind: LossKind,
    /// Whether the step sets it, after it reads it.
    pub(crate) sets: bool,
    pub(crate) reads: bool,
    /// Whether the step sets it, and its loss is a bug.
    pub(crate) counts: bool,
}

/// Whether a step neither sets nor reads any value, as most instructions.
#[inline(always)]
pub(crate) fn leaves_all(step: Step, effect: &Effect) -> bool
    ensures { IsTrue result → ((x : AKind) → Leaves step effect.now x) }
{
    if effect.fixed {
        return false;
    }
    if let Step::Atomic { .. } = step {
        return false;
    }
    match effect.note {
        Note::Signal { .. } => false,
        Note::AtomicRead => false,
        Note::TagRead { .. } => false,
        _ => true,
    }
}

/// Whether a step is an instruction.
fn is_instruction(step: Step) -> bool
    ensures { result ≡ is_instruction_step step }
{
    match step {
        Step::Exec { .. } => true,
        _ => false,
    }
}

/// The signal register that a step sets or reads.
pub(crate) fn signal_touch(setup: &Setup, step: Step, effect: &Effect) -> Option<Touch>
    ensures { IsTouch setup.now is_signal step effect.now result }
{
    let Note::Signal { spe, register } = effect.note else {
        return None;
    };
    let reads = is_instruction(step);
    let counts = !reads && (register == 1 || register == 2) && !setup.has_or_mode(spe, register);
    Some(Touch {
        kind: LossKind::Signal { spe, register },
        sets: !reads,
        reads,
        counts,
    })
}

/// Whether an atomic command with this effect is a PUTLLC whose reservation is lost.
fn is_failed_store(effect: &Effect) -> bool
    ensures value { result ≡ is_failed effect.now }
    ensures failed { (m : Ran) (p : ℕ) → effect_in m (Step.Atomic p) ≡ Some effect.now → (IsTrue result ↔ Fails m p) }
{
    effect.writes.len == 0
}

/// The atomic status that a step sets or reads.
pub(crate) fn store_touch(setup: &Setup, step: Step, effect: &Effect) -> Option<Touch>
    ensures { IsTouch setup.now is_store step effect.now result }
{
    match step {
        Step::Atomic { spe } => Some(Touch {
            kind: LossKind::FailedStore { spe },
            sets: true,
            reads: false,
            counts: is_failed_store(effect),
        }),
        Step::Exec { spe } => {
            if !is_atomic_read(effect.note) {
                return None;
            }
            Some(Touch {
                kind: LossKind::FailedStore { spe },
                sets: false,
                reads: true,
                counts: false,
            })
        }
        _ => None,
    }
}

fn is_atomic_read(note: Note) -> bool
    ensures { result ≡ is_atomic_read_of note }
{
    match note {
        Note::AtomicRead => true,
        _ => false,
    }
}

fn is_tag_read(note: Note) -> bool
    ensures { result ≡ is_tag_read_of note }
{
    match note {
        Note::TagRead { .. } => true,
        _ => false,
    }
}

/// The tag status that a step sets or reads.
pub(crate) fn tag_touch(setup: &Setup, step: Step, effect: &Effect) -> Option<Touch>
    ensures { IsTouch setup.now is_tag step effect.now result }
{
    let (spe, reads) = match step {
        Step::Exec { spe } => (spe, is_tag_read(effect.note)),
        Step::Piece { spe, .. } => (spe, false),
        Step::Elem { spe, .. } => (spe, false),
        Step::Retire { spe, .. } => (spe, false),
        Step::Atomic { spe } => (spe, false),
        Step::Host => return None,
    };
    if !reads && !effect.fixed {
        return None;
    }
    Some(Touch {
        kind: LossKind::TagStatus { spe },
        sets: effect.fixed,
        reads,
        counts: effect.fixed,
    })
}
