// What a line of a script asks for.

use cell_base::Actor;
use cell_machine::Show;

/// A line with words.
#[derive(Clone, Copy)]
pub enum Line {
    /// Turns of one actor with one choice.
    Step {
        actor: Actor,
        choice: u32,
        turns: u32,
    },
    /// Turns of all actors, up to where the processor runs at an address.
    Until {
        spe: u8,
        at: u32,
        turns: u32,
    },
    /// A register.
    Register {
        spe: u8,
        r: u8,
    },
    /// A range of main memory or of a local store.
    Show {
        show: Show,
    },
    /// So many words of a local store, as instructions.
    Words {
        spe: u8,
        at: u32,
        count: u32,
    },
    /// What a processor does.
    Spe {
        spe: u8,
    },
    /// How the run ended.
    End,
}
