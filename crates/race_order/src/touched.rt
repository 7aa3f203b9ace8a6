//! The one outstanding command that a step touches.

ghost use Rattle.std.specs.Prelude.{◌≡◌, ◌<◌, IfSome, length, take, slice_index_or, true, false};
ghost use Rattle.std.specs.List.{list_any};
ghost use Rattle.race_order.specs.declared.lives.Live.{Live as ALive};
ghost use Rattle.race_order.specs.Lives.{is_target};
ghost use Rattle.race_order.specs.Sole.{IsSole};

use crate::lives::{Live, Target, may_touch, touches};

/// The place of the first command that is touched.
fn first_touched(lives: &[Live], target: Target) -> Option<usize>
    ensures inside { IfSome result (λ i. i < length lives.now) }
    ensures here { IfSome result (λ i. (d : ALive) → is_target target (slice_index_or lives.now i d) ≡ true) }
    ensures before { IfSome result (λ i. list_any (is_target target) (take i lives.now) ≡ false) }
{
    for i in 0..lives.len() {
        if touches(&lives[i], target) {
            return Some(i);
        }
    }
    None
}

/// Whether one of the commands is touched.
fn touches_one(lives: &[Live], target: Target) -> bool
    ensures { result ≡ list_any (is_target target) lives.now }
{
    lives.iter().any(|live| touches(live, target))
}

/// The place of the command that is touched, where it is the only one. Mostly it is.
pub(crate) fn only_touched(lives: &[Live], target: Target) -> Option<usize>
    ensures { IfSome result (IsSole (is_target target) lives.now) }
{
    if !may_touch(target) {
        return None;
    }
    let i = first_touched(lives, target)?;
    if touches_one(&lives[i + 1..], target) {
        None
    } else {
        Some(i)
    }
}
