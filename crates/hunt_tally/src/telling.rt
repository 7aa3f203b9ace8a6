//! What one run tells.

use std::marker::Model;

/// What a run tells: by `key` two tellings are the same; `shown` is what is printed of the first run that tells it.
#[derive(Drop)]
pub struct Telling {
    pub key: Vec<u8>,
    pub shown: Vec<u8>,
}

impl Model for Telling {
    ghost use Rattle.hunt_tally.specs.Tallies.{Tells};

    ghost Value = { Tells };

    ghost view = { λ t. record { key = t.key.items; shown = t.shown.items } };
}
