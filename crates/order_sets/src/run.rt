//! Commands that follow one another.

ghost use Rattle.std.specs.Prelude.{◌≤◌};

/// The commands from `first` to `last` of a chain.
#[derive(Clone, Copy, Drop)]
pub(crate) struct Run {
    pub(crate) chain: u8,
    pub(crate) first: u32,
    pub(crate) last: u32,
    ghost rises: { first ≤ last },
}
