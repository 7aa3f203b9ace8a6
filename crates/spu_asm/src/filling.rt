//! The bytes between a line's address and the next.

ghost use Rattle.std.specs.Prelude.{◌≡◌, ◌-◌, ◌≤◌, [], ◌∷◌, IfOk};
ghost use Rattle.std.specs.List.{repeat};
ghost use Rattle.spu_asm.specs.Encoding.{filling};
ghost use Rattle.spu_asm.specs.Layout.{address_after};

use crate::instructions::{instr_bytes, lnop};
use crate::layout::{alignment, next_multiple};
use crate::syntax::{Section, Statement};
use std::alloc::{AllocError, Global};

/// How far an alignment moves its section.
#[tactic(auto, unfolding(crate::specs::Layout::address_after))]
pub(crate) fn align_len(section: Section, at: u32, n: u32) -> usize
    requires at { at ≤ 262144 }
    requires small { n ≤ 12 }
    ensures { result ≡ address_after section at (Statement.Align n) - at }
{
    next_multiple(alignment(section, n), at).saturating_sub(at) as usize
}

/// How far an origin does.
#[tactic(auto, unfolding(crate::specs::Layout::address_after))]
pub(crate) fn org_len(section: Section, at: u32, n: u64) -> usize
    ensures { result ≡ address_after section at (Statement.Org n) - at }
{
    n.saturating_sub(at as u64) as usize
}

/// How far a skip does.
#[tactic(auto, unfolding(crate::specs::Layout::address_after))]
pub(crate) fn skip_len(section: Section, at: u32, n: u64) -> usize
    ensures { result ≡ address_after section at (Statement.Skip n) - at }
{
    let _ = (section, at);
    n as usize
}

/// The bytes of an alignment: lnop in text, zeros in data.
pub(crate) fn filling(alloc: Global, section: Section, n: usize) -> Result<Vec<u8>, AllocError>
    ensures { IfOk result (λ v. v.items ≡ filling section n) }
{
    match section {
        Section::Text => instr_bytes(lnop()).repeat(alloc, n / 4),
        Section::Data => zeros(alloc, n),
    }
}

pub(crate) fn zeros(alloc: Global, n: usize) -> Result<Vec<u8>, AllocError>
    ensures { IfOk result (λ v. v.items ≡ repeat n (0 ∷ [])) }
{
    [0u8].repeat(alloc, n)
}
