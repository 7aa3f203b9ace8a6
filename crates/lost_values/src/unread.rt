//! The unread values of one sort: those of signal registers, atomic statuses or tag statuses.

ghost use Rattle.std.specs.Prelude.{◌≡◌, ℕ, ◌++◌, length, map, filter, not, Contains, IfNone, IfOk, IfSome, OnOk};
ghost use Rattle.lost_values.specs.Keeping.{IsReplacedBy, IsTouched, ending_of};
ghost use Rattle.lost_values.specs.Touches.{is_same as is_same_kind};

use crate::loss::{Loss, LossKind};
use crate::touches::Touch;
use std::alloc::AllocError;

/// A value that no step has read or replaced so far.
#[derive(Clone, Copy)]
pub(crate) struct Unread {
    pub(crate) kind: LossKind,
    /// The place of the step that set it.
    pub(crate) place: u32,
}

/// Whether two kinds name the same value.
fn is_same(a: LossKind, b: LossKind) -> bool
    ensures { result ≡ is_same_kind a b }
{
    match (a, b) {
        (
            LossKind::Signal { spe, register },
            LossKind::Signal {
                spe: other_spe,
                register: other_register,
            },
        ) => spe == other_spe && register == other_register,
        (LossKind::FailedStore { spe }, LossKind::FailedStore { spe: other }) => spe == other,
        (LossKind::TagStatus { spe }, LossKind::TagStatus { spe: other }) => spe == other,
        _ => false,
    }
}

/// The place of the step that set the value of this kind, if it is unread.
fn place_of(values: &[Unread], kind: LossKind) -> Option<u32>
    ensures found { IfSome result (λ place. Contains values.now (record { kind = kind; place = place })) }
    ensures none { IfNone result ((place : ℕ) → Contains values.now (record { kind = kind; place = place }) → ⊥) }
{
    for value in values {
        if is_same(kind, value.kind) {
            return Some(value.place);
        }
    }
    None
}

/// Drops the value of this kind.
fn drop_kind(values: &mut Vec<Unread>, kind: LossKind)
    ensures { values.new.items ≡ filter (λ v. not (is_same_kind kind v.kind)) values.old.items }
{
    values.retain(|value| !is_same(kind, value.kind));
}

/// Adds the touch by the step at this place, if there is one. Returns the loss if the step replaces an unread value.
pub(crate) fn touch(
    values: &mut Vec<Unread>,
    touched: Option<Touch>,
    place: u32,
) -> Result<Option<Loss>, AllocError>
    ensures { IfOk result (λ loss. IsTouched touched place values.old.items values.new.items loss) }
{
    let Some(touched) = touched else {
        return Ok(None);
    };
    let was = place_of(values.as_slice(), touched.kind);
    drop_kind(values, touched.kind);
    if touched.counts {
        values.push(Unread {
            kind: touched.kind,
            place,
        })?;
    }
    Ok(loss_of(touched, was, place))
}

/// The loss of the value that was set at the place `was`, if the step at `place` replaces it unread.
fn loss_of(touched: Touch, was: Option<u32>, place: u32) -> Option<Loss>
    ensures { IsReplacedBy touched place was result }
{
    if touched.reads || !touched.sets {
        return None;
    }
    Some(Loss {
        kind: touched.kind,
        lost: was?,
        by: Some(place),
    })
}

/// Adds the losses of values that are unread at the end of the run.
pub(crate) fn add_endings(values: &[Unread], losses: &mut Vec<Loss>) -> Result<(), AllocError>
    ensures { OnOk result (losses.new.items ≡ losses.old.items ++ map ending_of values.now) }
{
    for value in values {
        losses.push(Loss {
            kind: value.kind,
            lost: value.place,
            by: None,
        })?;
    }
    Ok(())
}
