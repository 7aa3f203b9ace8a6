//! Where a step comes from.

ghost use Rattle.std.specs.Prelude.{◌≡◌};
ghost use Rattle.cell_hunt.specs.Sites.{site_of};

use cell_base::Step;

/// Where a step comes from.
#[derive(Clone, Copy)]
pub enum Site {
    /// The instruction at this address of a processor's store.
    Exec { spe: u8, at: u32 },
    /// A piece of a command that the instruction at this address issued.
    Piece { spe: u8, at: u32 },
    /// The reading of an element of a list that the instruction at this address issued.
    Elem { spe: u8, at: u32 },
    /// The end of a command without pieces that the instruction at this address issued.
    Retire { spe: u8, at: u32 },
    /// The atomic command that the instruction at this address issued.
    Atomic { spe: u8, at: u32 },
    /// The host's action of this number, counted from 0.
    Host { action: u32 },
}

/// Where the two steps of a race come from, in the order of the run.
#[derive(Clone, Copy)]
pub struct Sites {
    pub first: Site,
    pub second: Site,
}

impl Site {
    /// The site of a step of which this is the address of its instruction, or the number of its action.
    pub(crate) fn new(of: Step, at: u32) -> Site
        ensures { result ≡ site_of of at }
    {
        match of {
            Step::Exec { spe } => Site::Exec { spe, at },
            Step::Piece { spe, .. } => Site::Piece { spe, at },
            Step::Elem { spe, .. } => Site::Elem { spe, at },
            Step::Retire { spe, .. } => Site::Retire { spe, at },
            Step::Atomic { spe } => Site::Atomic { spe, at },
            Step::Host => Site::Host { action: at },
        }
    }
}
