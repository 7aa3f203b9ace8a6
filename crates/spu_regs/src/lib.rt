//! The registers of a processor.
#![tactic(auto)]

ghost use Rattle.std.specs.Prelude.{◌≡◌, ◌<◌, ℕ, List, length, IfOk, Some, slice_get, slice_set};
ghost use Rattle.spu_regs.specs.Registers.{register, zero_registers};

use cell_base::Quad;
use std::alloc::{AllocError, Global};
use std::marker::Model;

/// There was no memory for the registers.
#[derive(Clone, Copy, Debug, PartialEq, Eq)]
pub enum RegsError {
    Memory,
}

impl From<AllocError> for RegsError {
    fn from(_: AllocError) -> RegsError {
        RegsError::Memory
    }
}

/// The 128 quadword registers of a processor, numbered from 0.
#[derive(Drop)]
pub struct Regs {
    quads: Vec<Quad>,
}

impl Model for Regs {
    ghost use Rattle.std.specs.Prelude.{◌≡◌, List, ℕ, length};

    ghost Value = { List (List ℕ) };

    ghost view = { λ r. r.quads.items };

    ghost invariant = { λ r. length r.quads.items ≡ 128 };
}

impl Regs {
    /// Registers that are all zero.
    pub fn new(alloc: Global) -> Result<Regs, RegsError>
        ensures { IfOk result (λ r. r ≡ zero_registers) }
    {
        let quads = vec![in alloc; Quad::of_bytes(&[0; 16]); 128]?;
        Ok(Regs { quads })
    }

    /// Register `r`, which is below 128.
    pub fn get(&self, r: u8) -> Quad
        requires { r < 128 }
        ensures value { result ≡ register self.now r }
        ensures there { slice_get self.now r ≡ Some result }
    {
        self.quads[r as usize]
    }

    /// Puts a quadword into register `r`, which is below 128, and leaves the others.
    pub fn set(&mut self, r: u8, q: Quad)
        requires { r < 128 }
        ensures { self.new ≡ slice_set self.old r q }
    {
        self.quads[r as usize] = q;
    }

    /// All registers, in the order of their numbers.
    pub fn quads(&self) -> &[Quad]
        ensures all { result.now ≡ self.now }
        ensures count { length self.now ≡ 128 }
    {
        self.quads.as_slice()
    }
}
