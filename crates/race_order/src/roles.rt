//! What a set of known steps is kept for.

ghost use Rattle.std.specs.Prelude.{◌≡◌};
ghost use Rattle.race_order.specs.Roles.{same_role as same_base};
ghost use Rattle.race_order.specs.Tables.{same_class, same_role};

/// Each is the steps of a run that later steps of one kind come after.
#[derive(Clone, Copy, PartialEq, Eq, Drop)]
pub(crate) enum Role {
    /// the instructions of a processor
    OfExec { spe: u8 },
    /// the host's actions
    OfHost,
    /// the issues of atomic operations
    OfSlot { spe: u8 },
    /// the atomic operations of a processor
    OfAtomic { spe: u8 },
    /// the steps that move the line that begins at the address whole
    OfLine { address: u32 },
    /// what went through one place of a mailbox
    OfBox { spe: u8, mailbox: u8, place: u32 },
    /// the deliveries to a signal register and the reads of it
    OfSignal { spe: u8, register: u8 },
    /// the end of a processor
    OfEnd { spe: u8 },
}

/// Commands of a processor.
#[derive(Clone, Copy, Drop)]
pub(crate) enum Class {
    All,
    Tag { tag: u8 },
    /// those of the tag that have a barrier
    BarredTag { tag: u8 },
    /// the BARRIER commands
    Barriers,
}

#[derive(Clone, Copy, Drop)]
pub(crate) enum QueueRole {
    Base { role: Role },
    /// what the steps of a command come after
    Waits { spe: u8, cmd: u32 },
    /// the complete commands of a class
    Complete { spe: u8, class: Class },
    /// those of a tag group when a status was fixed
    Fixed { spe: u8, tag: u8 },
    /// the elements after which lists of a tag have stalled
    Stalled { spe: u8, tag: u8 },
}

/// Whether the two are one role.
fn is_same(a: &Role, b: &Role) -> bool
    ensures { result ≡ same_base a.now b.now }
{
    match (*a, *b) {
        (Role::OfExec { spe: p }, Role::OfExec { spe: q }) => p == q,
        (Role::OfHost, Role::OfHost) => true,
        (Role::OfSlot { spe: p }, Role::OfSlot { spe: q }) => p == q,
        (Role::OfAtomic { spe: p }, Role::OfAtomic { spe: q }) => p == q,
        (Role::OfLine { address: x }, Role::OfLine { address: y }) => x == y,
        (
            Role::OfBox {
                spe: p,
                mailbox: m,
                place: r,
            },
            Role::OfBox {
                spe: q,
                mailbox: l,
                place: s,
            },
        ) => p == q && m == l && r == s,
        (
            Role::OfSignal {
                spe: p,
                register: r,
            },
            Role::OfSignal {
                spe: q,
                register: s,
            },
        ) => p == q && r == s,
        (Role::OfEnd { spe: p }, Role::OfEnd { spe: q }) => p == q,
        _ => false,
    }
}

pub(crate) fn is_class(a: Class, b: Class) -> bool
    ensures { result ≡ same_class a b }
{
    match (a, b) {
        (Class::All, Class::All) => true,
        (Class::Tag { tag: g }, Class::Tag { tag: h }) => g == h,
        (Class::BarredTag { tag: g }, Class::BarredTag { tag: h }) => g == h,
        (Class::Barriers, Class::Barriers) => true,
        _ => false,
    }
}

/// Whether the two are one role. It is compiled into the search for a set, which asks it at each place.
#[inline(always)]
pub(crate) fn is_role(a: &QueueRole, b: &QueueRole) -> bool
    ensures { result ≡ same_role a.now b.now }
{
    match (*a, *b) {
        (QueueRole::Base { role: r }, QueueRole::Base { role: s }) => is_same(&r, &s),
        (QueueRole::Waits { spe: p, cmd: c }, QueueRole::Waits { spe: q, cmd: d }) => {
            p == q && c == d
        }
        (QueueRole::Complete { spe: p, class: c }, QueueRole::Complete { spe: q, class: d }) => {
            p == q && is_class(c, d)
        }
        (QueueRole::Fixed { spe: p, tag: g }, QueueRole::Fixed { spe: q, tag: h }) => {
            p == q && g == h
        }
        (QueueRole::Stalled { spe: p, tag: g }, QueueRole::Stalled { spe: q, tag: h }) => {
            p == q && g == h
        }
        _ => false,
    }
}
