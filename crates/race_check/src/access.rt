//! The bytes that a step fetches, reads and writes.

ghost use Rattle.std.specs.Prelude.{◌≡◌, ◌↔◌, IsTrue};
ghost use Rattle.cell_machine.specs.EffectLaws.{same_place};
ghost use Rattle.race_check.specs.Races.{Conflict, Meet, WritesInto, access_of};

use cell_machine::{Effect, Place, Span};

/// The spans of one step.
#[derive(Clone, Copy)]
pub struct Access {
    pub fetch: Span,
    pub reads: Span,
    pub writes: Span,
}

/// Those of a step that has this effect.
pub fn access_of(effect: &Effect) -> Access
    ensures { result ≡ access_of effect.now }
{
    Access {
        fetch: effect.fetch,
        reads: effect.reads,
        writes: effect.writes,
    }
}

/// Whether the two are one place.
pub fn is_same(a: Place, b: Place) -> bool
    ensures { result ≡ same_place a b }
{
    match (a, b) {
        (Place::Memory, Place::Memory) => true,
        (Place::Memory, Place::Local(_)) => false,
        (Place::Local(_), Place::Memory) => false,
        (Place::Local(p), Place::Local(q)) => p == q,
    }
}

/// Whether a byte stands in both spans.
fn meet(a: &Span, b: &Span) -> bool
    ensures { IsTrue result ↔ Meet a.now b.now }
{
    let start = u64::from(a.at.max(b.at));
    let in_first = start < u64::from(a.at) + u64::from(a.len);
    let in_second = start < u64::from(b.at) + u64::from(b.len);
    is_same(a.place, b.place) && in_first && in_second
}

/// Whether the first writes a byte that the second fetches, reads or writes.
fn writes_into(a: &Access, b: &Access) -> bool
    ensures { IsTrue result ↔ WritesInto a.now b.now }
{
    meet(&a.writes, &b.fetch) || meet(&a.writes, &b.reads) || meet(&a.writes, &b.writes)
}

/// Whether one of the two writes a byte that the other fetches, reads or writes.
pub fn conflicts(a: &Access, b: &Access) -> bool
    ensures { IsTrue result ↔ Conflict a.now b.now }
{
    writes_into(a, b) || writes_into(b, a)
}
