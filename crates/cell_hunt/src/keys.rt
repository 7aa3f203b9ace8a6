//! The keys by which the next step is chosen.

ghost use Rattle.std.specs.Prelude.{◌≡◌, ◌<◌, All, map};
ghost use Rattle.std.specs.List.{range_with_len};
ghost use Rattle.cell_hunt.specs.Keys.{key_at, random_at, unlowered_at};

use crate::mixing::with_number;
use crate::strategy::Strategy;
use std::marker::Model;

/// How many keys a run has at most: one for each of sixteen processors, sixteen atomic slots and the host, and sixteen for the queued commands of
/// each processor.
const PLACES: usize = 289;

/// A power of two above all places.
const ABOVE_PLACES: u64 = 512;

/// The least key that isn't lowered.
const UNLOWERED: u64 = 1 << 32;

/// A power of two above all keys.
pub const ABOVE_KEYS: u64 = 1 << 46;

/// The keys of a run.
#[derive(Drop)]
pub struct Keys {
    /// The number that keys are computed from.
    base: u64,
    /// By their places the keys that stay. A walk, which seldom asks for a key, computes each when it asks.
    stay: [u64; PLACES],
}

impl Model for Keys {
    ghost use Rattle.std.specs.Prelude.{◌<◌, All};
    ghost use Rattle.cell_hunt.specs.Keys.{RunKeys};
    ghost use Rattle.cell_hunt.specs.declared.keys.TheConstants.{ABOVE_KEYS};

    ghost Value = { RunKeys };

    ghost view = { λ k. record { base = k.base; stay = k.stay } };

    ghost invariant = { λ k. All (λ key. key < ABOVE_KEYS) k.stay };
}

/// The word of the key at a place.
fn random_at(base: u64, place: u16) -> u64
    ensures random { result ≡ random_at base place }
    ensures small { result < UNLOWERED }
{
    with_number(base, u64::from(place)) % UNLOWERED
}

/// The key at a place while it isn't lowered.
#[tactic(auto, unfolding(crate::specs::Keys::unlowered_at))]
fn unlowered_at(strategy: Strategy, base: u64, place: u16) -> u64
    ensures key { result ≡ unlowered_at strategy base place }
    ensures small { result < ABOVE_KEYS }
{
    UNLOWERED
        + random_at(base, place) * strategy.key_weight(place) * ABOVE_PLACES
        + u64::from(place)
}

/// All keys of a base by their places, none of them lowered.
fn all_unlowered(strategy: Strategy, base: u64) -> [u64; PLACES]
    ensures keys { result ≡ map (unlowered_at strategy base) (range_with_len 0 289) }
    ensures small { All (λ key. key < ABOVE_KEYS) result }
{
    let mut keys = [0; PLACES];
    for place in 0..PLACES {
        keys[place] = unlowered_at(strategy, base, place as u16);
    }
    keys
}

impl Keys {
    ghost use Rattle.cell_hunt.specs.Keys.{opened, with_base, with_lowered};

    /// The keys of this base, none of them lowered.
    #[tactic(auto, unfolding(crate::specs::Keys::opened))]
    pub fn new(strategy: Strategy, base: u64) -> Keys
        ensures { result ≡ opened strategy base }
    {
        if strategy.walks {
            return Keys {
                base,
                stay: [0; PLACES],
            };
        }
        Keys {
            base,
            stay: all_unlowered(strategy, base),
        }
    }

    /// Draws anew the keys that a walk computes.
    pub fn set_base(&mut self, base: u64)
        ensures { self.new ≡ with_base base self.old }
    {
        self.base = base;
    }

    /// Lowers the key at a place below all others, for the step of this number.
    pub fn lower(&mut self, place: u16, number: u32)
        ensures { self.new ≡ with_lowered place number self.old }
    {
        if usize::from(place) < PLACES {
            self.stay[usize::from(place)] = UNLOWERED - u64::from(number);
        }
    }

    /// The key at a place.
    pub fn key(&self, strategy: Strategy, place: u16) -> u64
        ensures key { result ≡ key_at strategy self.now place }
        ensures small { result < ABOVE_KEYS }
    {
        if strategy.walks {
            unlowered_at(strategy, self.base, place)
        } else if usize::from(place) < PLACES {
            self.stay[usize::from(place)]
        } else {
            0
        }
    }
}
