//! The right of one thread to ask for the turn.
ghost use Rattle.std.specs.Prelude.{◌≡◌, length};
ghost use Rattle.cell_turn.specs.Known.{Rests};

use crate::view::View;
use atomic_table::Seat;
use cell_machine::Machine;
use std::marker::Model;

/// The right to ask for the turn. To a contract it is what it knows. It has the turn at no call's entry or exit.
#[derive(Drop)]
pub struct Pass {
    pub(crate) seat: Seat<Machine, View>,
    pub(crate) tokens: u32,
    pub(crate) front: u32,
    pub(crate) made: u32,
}

impl Model for Pass {
    ghost use Rattle.cell_turn.specs.Known.{Known};

    ghost Value = { Known };

    ghost use Rattle.cell_turn.specs.Passes.{known, IsAtRest};

    ghost view = { known };

    ghost invariant = { IsAtRest };
}

impl Pass {
    /// How many tokens it has: all passes of a machine have as many as were asked for at the start.
    pub fn tokens(&self) -> u32
        ensures tokens { result ≡ self.now.tokens }
        ensures rests { Rests self.now }
    {
        self.tokens
    }

    /// How many steps of the record it has seen.
    pub fn front(&self) -> u32
        ensures front { result ≡ length self.now.seen }
        ensures rests { Rests self.now }
    {
        self.front
    }

    /// How many steps it made.
    pub fn made(&self) -> u32
        ensures made { result ≡ length self.now.told }
        ensures rests { Rests self.now }
    {
        self.made
    }
}
