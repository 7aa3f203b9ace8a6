//! The classes of equivalent runs as JSON.

ghost use Rattle.std.specs.Prelude.{◌≡◌, ◌++◌, OnOk};
ghost use Rattle.hunt_texts.specs.Lists.{from_place};
ghost use Rattle.hunt_texts.specs.Jsons.{comma_json, kind_json, kind_at, kinds_json};

use crate::numbers::{put_number, put_word};
use hunt_tally::{Kind, Kinds};
use std::alloc::AllocError;

/// Writes a comma before each element but the first.
pub fn put_comma_json(out: &mut Vec<u8>, place: usize) -> Result<(), AllocError>
    ensures { OnOk result (out.new.items ≡ out.old.items ++ comma_json place) }
{
    if place == 0 {
        return Ok(());
    }
    out.extend_from_slice(b",")
}

#[tactic(auto, unfolding(crate::specs::Jsons::kind_json))]
fn put_kind_json(out: &mut Vec<u8>, kind: Kind) -> Result<(), AllocError>
    ensures { OnOk result (out.new.items ≡ out.old.items ++ kind_json kind) }
{
    out.extend_from_slice(b"\"")?;
    put_word(out, kind.digest, b"\":")?;
    put_number(out, u64::from(kind.runs))
}

fn put_kind_at(out: &mut Vec<u8>, place: usize, kind: Kind) -> Result<(), AllocError>
    ensures { OnOk result (out.new.items ≡ out.old.items ++ kind_at place kind) }
{
    put_comma_json(out, place)?;
    put_kind_json(out, kind)
}

fn put_all_json(out: &mut Vec<u8>, kinds: &Kinds) -> Result<(), AllocError>
    ensures { OnOk result (out.new.items ≡ out.old.items ++ from_place kind_at 0 kinds.now) }
{
    for place in 0..kinds.len() {
        put_kind_at(out, place, kinds.get(place))?;
    }
    Ok(())
}

/// Writes the object of all kinds.
#[tactic(auto, unfolding(crate::specs::Jsons::kinds_json))]
pub fn put_kinds_json(out: &mut Vec<u8>, kinds: &Kinds) -> Result<(), AllocError>
    ensures { OnOk result (out.new.items ≡ out.old.items ++ kinds_json kinds.now) }
{
    out.extend_from_slice(b"{\"kinds\":{")?;
    put_all_json(out, kinds)?;
    out.extend_from_slice(b"}}\n")
}
