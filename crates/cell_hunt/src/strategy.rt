//! How the orders of runs are chosen.

ghost use Rattle.std.specs.Prelude.{◌≡◌, ◌*◌, ◌<◌, ◌≤◌, nat_le};
ghost use Rattle.cell_hunt.specs.Keys.{key_weight};
ghost use Rattle.cell_hunt.specs.Strategies.{actor_drawn, strategy_at, strategy_of, weight_of};

use crate::owners::FIRST_QUEUED;
use cell_base::Actor;

/// How the order of a run is chosen.
#[derive(Clone, Copy)]
pub struct Strategy {
    /// A processor goes on while its next instruction is local: no other actor can see when it is made.
    pub local: bool,
    /// Each choice draws an actor. Otherwise actors and queued commands have keys, which stay for the whole run, or until they are lowered.
    pub walks: bool,
    /// A walk draws an MFC 16 times less often than a processor or the host.
    pub late: bool,
    /// A processor that polls a line which nobody has written since waits while anything else can make a step.
    pub polls_last: bool,
    /// If keys stay, a run lowers the greatest one before a choice with a chance of 2^-j. It draws j once: from this to 7 more.
    pub least_rate: u8,
}

/// The strategies of a hunt, which its runs take in turn.
pub static STRATEGIES: [Strategy; 4] = [
    // a random walk: each actor that has a step is as likely as any other
    Strategy {
        local: false,
        walks: true,
        late: false,
        polls_last: false,
        least_rate: 0,
    },
    // a random walk of steps that others can see, in which transfers complete late
    Strategy {
        local: true,
        walks: true,
        late: true,
        polls_last: false,
        least_rate: 0,
    },
    // priorities that change often, and nobody polls while others work
    Strategy {
        local: true,
        walks: false,
        late: false,
        polls_last: true,
        least_rate: 1,
    },
    // priorities that seldom change
    Strategy {
        local: true,
        walks: false,
        late: false,
        polls_last: false,
        least_rate: 5,
    },
];

/// The strategy of a run.
pub fn strategy_of(run: u32) -> Strategy
    ensures { result ≡ strategy_of run }
{
    STRATEGIES[run as usize % STRATEGIES.len()]
}

impl Strategy {
    /// The strategy of the choice after so many steps of a run. The last quarter of the budget is a random walk, so a run spends its
    /// budget only if even a fair schedule doesn't end it.
    pub fn at(self, steps: u32, budget: u32) -> Strategy
        ensures { result ≡ strategy_at self steps budget }
    {
        if 3 * u64::from(budget) <= 4 * u64::from(steps) {
            strategy_of(0)
        } else {
            self
        }
    }

    /// How much likelier a walk draws a processor, or the host, than an MFC.
    fn weight(self) -> u32
        ensures weight { result ≡ weight_of self }
        ensures some { 0 < result }
        ensures small { result < 17 }
    {
        if self.late { 16 } else { 1 }
    }

    /// The weight of the key at a place: a queued command has 1, and the others have as much as in a walk.
    pub fn key_weight(self, place: u16) -> u64
        ensures weight { result ≡ key_weight self place }
        ensures small { result < 17 }
    {
        if place < FIRST_QUEUED {
            u64::from(self.weight())
        } else {
            1
        }
    }

    /// The actor that a word draws among those of up to 16 processors.
    pub fn actor(self, spes: u8, word: u32) -> Actor
        requires { spes ≤ 16 }
        ensures { result ≡ actor_drawn self spes word }
    {
        let weight = self.weight();
        let processors = weight * u32::from(spes);
        let controllers = processors + u32::from(spes);
        let ticket = word % (controllers + weight);
        if ticket < processors {
            Actor::Spu((ticket / weight) as u8)
        } else if ticket < controllers {
            Actor::Mfc((ticket - processors) as u8)
        } else {
            Actor::Host
        }
    }
}
