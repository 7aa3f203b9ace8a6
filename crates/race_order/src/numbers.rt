//! In which bucket a role's set stands.
//!
//! Each role that can come has a bucket of its own, but for commands of one processor whose numbers differ by a multiple of 64, and for lines
//! whose numbers differ by a multiple of 512. The lines take what the roles of the processors leave of each 256 numbers, so the numbers of 16
//! processors are below 4096.

ghost use Rattle.std.specs.Prelude.{◌≡◌, ◌+◌, ◌*◌, ◌/◌, ◌%◌, ◌<◌, ◌^◌};
ghost use Rattle.race_order.specs.Tables.{class_number, base_number, number};

use crate::roles::{Class, QueueRole, Role};

fn class_number(class: Class) -> u64
    ensures number { result ≡ class_number class }
    ensures low { result < 512 }
{
    match class {
        Class::All => 16,
        Class::Barriers => 17,
        Class::Tag { tag } => 32 + u64::from(tag),
        Class::BarredTag { tag } => 64 + u64::from(tag),
    }
}

fn base_number(role: Role) -> u64
    ensures number { result ≡ base_number role }
    ensures low { result < 2 ^ 40 }
{
    match role {
        Role::OfExec { spe } => 256 * u64::from(spe),
        Role::OfSlot { spe } => 256 * u64::from(spe) + 1,
        Role::OfAtomic { spe } => 256 * u64::from(spe) + 2,
        Role::OfEnd { spe } => 256 * u64::from(spe) + 3,
        Role::OfBox {
            spe,
            mailbox,
            place,
        } => 256 * u64::from(spe) + 4 + 4 * u64::from(mailbox) + u64::from(place),
        Role::OfHost => 18,
        Role::OfSignal { spe, register } => 256 * u64::from(spe) + 18 + u64::from(register),
        Role::OfLine { address } => {
            let line = u64::from(address) / 128;
            256 * (line / 32 % 16) + 224 + line % 32
        }
    }
}

/// The number of the role's bucket.
pub(crate) fn number(role: QueueRole) -> u64
    ensures number { result ≡ number role }
    ensures low { result < 2 ^ 41 }
{
    match role {
        QueueRole::Base { role } => base_number(role),
        QueueRole::Waits { spe, cmd } => 256 * u64::from(spe) + 160 + u64::from(cmd) % 64,
        QueueRole::Complete { spe, class } => 256 * u64::from(spe) + class_number(class),
        QueueRole::Fixed { spe, tag } => 256 * u64::from(spe) + 96 + u64::from(tag),
        QueueRole::Stalled { spe, tag } => 256 * u64::from(spe) + 128 + u64::from(tag),
    }
}
