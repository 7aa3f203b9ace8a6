//! Lists of crowds when a new entry comes.

ghost use Rattle.std.specs.Prelude.{◌≡◌, ◌<◌, ◌≤◌, true, Option, Some, None, length, IfSome, OnOk, slice_index_or};
ghost use Rattle.race_check.specs.declared.crowd.Crowd.{Crowd as ACrowd};
ghost use Rattle.run_walk.specs.Ordered.{IsOrdered};
ghost use Rattle.run_walk.specs.Walks.{IsLast, walked};
ghost use Rattle.race_check.specs.Entries.{HasSameBytes};
ghost use Rattle.race_check.specs.Crowds.{CrowdTells, IsCutPut, IsJoined, IsPut, IsTrimmed, Tells};
ghost use Rattle.race_check.specs.Safe.{IsSafe};

use crate::crowd::Crowd;
use crate::entry::{Entry, back, front, has_same_bytes, meet};
use crate::error::RaceError;
use crate::later::later;
use crate::stack::{Stack, is_safe};
use run_walk::Walk;
use std::alloc::Global;

/// The latest step of the crowd that has a byte of the new entry, and is neither its step nor ordered before it.
fn clash(crowd: &Crowd, new: &Entry, walk: &Walk) -> Option<u32>
    requires { IsLast walk.now new.now.step }
    ensures { CrowdTells (IsOrdered (walked walk.now)) new.now crowd.now result }
{
    if meet(&crowd.entry, new) {
        crowd.latest_unsafe(new.step, walk)
    } else {
        None
    }
}

/// The latest step of the list with which the new entry clashes.
pub fn latest_clash(crowds: &[Crowd], new: &Entry, walk: &Walk) -> Option<u32>
    requires { IsLast walk.now new.now.step }
    ensures { Tells (IsOrdered (walked walk.now)) new.now crowds.now result }
{
    let mut latest = None;
    for crowd in crowds {
        latest = later(latest, clash(crowd, new, walk));
    }
    latest
}

/// The place of a crowd that has the entry's bytes.
fn find(crowds: &[Crowd], entry: &Entry) -> Option<usize>
    ensures inside { IfSome result (λ i. i < length crowds.now) }
    ensures same { IfSome result (λ i. (d : ACrowd) → HasSameBytes (slice_index_or crowds.now i d).entry entry.now) }
{
    for (i, crowd) in crowds.iter().enumerate() {
        if has_same_bytes(&crowd.entry, entry) {
            return Some(i);
        }
    }
    None
}

/// The same, looked for at a place first.
fn find_near(crowds: &[Crowd], entry: &Entry, near: usize) -> Option<usize>
    ensures inside { IfSome result (λ i. i < length crowds.now) }
    ensures same { IfSome result (λ i. (d : ACrowd) → HasSameBytes (slice_index_or crowds.now i d).entry entry.now) }
{
    if near < crowds.len() && has_same_bytes(&crowds[near].entry, entry) {
        return Some(near);
    }
    find(crowds, entry)
}

/// Whether the crowd at a place has the new entry's bytes, and its own step is the new entry's or ordered before it.
#[inline(always)]
pub fn is_again(crowds: &[Crowd], at: usize, new: &Entry, walk: &Walk) -> bool
    requires { IsLast walk.now new.now.step }
    ensures inside { result ≡ true → at < length crowds.now }
    ensures same { result ≡ true → (d : ACrowd) → HasSameBytes (slice_index_or crowds.now at d).entry new.now }
    ensures safe { result ≡ true → (d : ACrowd) → IsSafe (IsOrdered (walked walk.now)) (slice_index_or crowds.now at d).entry.step new.now.step }
{
    if crowds.len() <= at {
        return false;
    }
    if !has_same_bytes(&crowds[at].entry, new) {
        return false;
    }
    is_safe(crowds[at].entry.step, new.step, walk)
}

/// The place of a crowd that has the entry's bytes, and whose other steps aren't later than these: so these go to their end.
fn find_earlier(crowds: &[Crowd], entry: &Entry, others: &Stack) -> Option<usize>
    ensures inside { IfSome result (λ i. i < length crowds.now) }
    ensures same { IfSome result (λ i. (d : ACrowd) → HasSameBytes (slice_index_or crowds.now i d).entry entry.now) }
{
    for (i, crowd) in crowds.iter().enumerate() {
        if has_same_bytes(&crowd.entry, entry) && crowd.others.are_up_to(entry.step, others) {
            return Some(i);
        }
    }
    None
}

/// Adds the bytes of the entry with its step and the others, to a crowd that has those bytes if there is one to whose end they go.
#[inline(never)]
fn put(
    alloc: Global,
    crowds: &mut Vec<Crowd>,
    entry: &Entry,
    others: &Stack,
) -> Result<(), RaceError>
    ensures put { OnOk result (IsPut entry.now others.now.list.items crowds.old.items crowds.new.items) }
    ensures long { OnOk result (length crowds.old.items ≤ length crowds.new.items) }
{
    if let Some(i) = find_earlier(crowds.as_slice(), entry, others) {
        let crowds = crowds.as_mut_slice();
        crowds[i].add(entry.step, others)?;
        return Ok(());
    }
    let others = others.copy(alloc)?;
    crowds.push(Crowd {
        entry: *entry,
        others,
    })?;
    Ok(())
}

/// Adds what a cut left of an entry, with the others. Mostly it left nothing.
#[inline(always)]
fn put_cut(
    alloc: Global,
    crowds: &mut Vec<Crowd>,
    cut: Option<Entry>,
    others: &Stack,
) -> Result<(), RaceError>
    ensures put { OnOk result (IsCutPut cut others.now.list.items crowds.old.items crowds.new.items) }
    ensures long { OnOk result (length crowds.old.items ≤ length crowds.new.items) }
{
    if let Some(entry) = cut {
        put(alloc, crowds, &entry, others)?;
    }
    Ok(())
}

/// Leaves of the crowd at i what the new entry doesn't have.
fn trim_at(alloc: Global, crowds: &mut Vec<Crowd>, i: usize, new: &Entry) -> Result<(), RaceError>
    requires { i < length crowds.old.items }
    ensures trimmed { OnOk result (IsTrimmed new.now crowds.old.items crowds.new.items) }
    ensures long { OnOk result (i ≤ length crowds.new.items) }
{
    if !meet(&crowds[i].entry, new) {
        return Ok(());
    }
    let crowd = crowds.swap_remove(i);
    put_cut(alloc, crowds, front(&crowd.entry, new.from), &crowd.others)?;
    put_cut(alloc, crowds, back(&crowd.entry, new.to), &crowd.others)?;
    Ok(())
}

/// Leaves of each crowd what the new entry doesn't have.
pub fn trim(alloc: Global, crowds: &mut Vec<Crowd>, new: &Entry) -> Result<(), RaceError>
    ensures { OnOk result (IsTrimmed new.now crowds.old.items crowds.new.items) }
{
    // downward: what is moved or added stands behind what is still to be looked at
    let mut i = crowds.len();
    while 0 < i {
        i -= 1;
        trim_at(alloc, crowds, i, new)?;
    }
    Ok(())
}

/// Adds the new entry, in the place of one of a step before it where one is found that has its bytes. It is looked for at a place first, and the answer is
/// where the entry behind it may be.
pub fn join(
    alloc: Global,
    crowds: &mut Vec<Crowd>,
    new: &Entry,
    near: usize,
    walk: &Walk,
) -> Result<usize, RaceError>
    requires { IsLast walk.now new.now.step }
    ensures { OnOk result (IsJoined (IsOrdered (walked walk.now)) new.now crowds.old.items crowds.new.items) }
{
    if let Some(i) = find_near(crowds.as_slice(), new, near) {
        let crowds = crowds.as_mut_slice();
        crowds[i].take(new.step, walk)?;
        return Ok(i.wrapping_add(1));
    }
    crowds.push(Crowd::of(alloc, *new))?;
    Ok(0)
}
