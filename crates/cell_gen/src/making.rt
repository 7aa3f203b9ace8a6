//! The machine of a number of rounds.

ghost use Rattle.std.specs.Prelude.{◌≡◌, ◌≢◌, ◌<◌, ◌≤◌, ◌+◌, ◌++◌, ◌∷◌, ◌↔◌, [], ℕ, length, Err, IfOk, OnOk, OnErr};
ghost use Rattle.cell_gen.specs.Generated.{placed_for, generated};

use crate::error::GenError;
use crate::program::{BLOCK_BYTES, code};
use cell_machine::{Setup, SetupError};
use std::alloc::Global;

/// How many rounds a processor makes at most.
const MOST_ROUNDS: u32 = 64;

/// How many processors there are.
const PROCESSORS: u8 = 8;

/// How many lines of 128 bytes the memory has: the processors' blocks and no more.
const LINES: u32 = 128;

/// How many steps a run may have; one of the most rounds has 419,888.
const STEPS: u32 = 1_000_000;

/// The error where a setup refused what is within its limits.
fn without_memory(error: SetupError) -> GenError
    requires { error ≢ SetupError.Limit }
    ensures { result ≡ GenError.Memory }
{
    match error {
        SetupError::Memory => GenError::Memory,
        SetupError::Limit => unreachable!(),
    }
}

/// Adds the next processor, with the program of its block in its store.
fn add_processor(alloc: Global, setup: &mut Setup, n: u32) -> Result<(), GenError>
    requires rounds { n ≤ 64 }
    requires room { length setup.old.entries < 8 }
    ensures added { OnOk result (setup.new ≡ record setup.old { entries = setup.old.entries ++ 0 ∷ []; placed = setup.old.placed ++ placed_for n (length setup.old.entries) ∷ [] }) }
    ensures memory { OnErr result (result ≡ Err GenError.Memory) }
{
    let spe = match setup.add_spe() {
        Ok(spe) => spe,
        Err(error) => return Err(without_memory(error)),
    };
    let bytes = code(alloc, BLOCK_BYTES * u32::from(spe), n)?;
    match setup.place(spe, 0, &bytes) {
        Ok(()) => Ok(()),
        Err(error) => Err(without_memory(error)),
    }
}

/// A machine of 128 lines, of which each of eight processors makes `n` rounds, at most 64, over 16 lines of its own: it fetches them,
/// adds 1 to each word, and puts them back. A run has at most 1,000,000 steps, and needs fewer. `TooLarge` exactly where `n` is above 64.
#[tactic(auto, unfolding(crate::specs::Generated::generated))]
pub fn generate(alloc: Global, n: u32) -> Result<Setup, GenError>
    ensures setup { IfOk result (λ s. s ≡ generated n) }
    ensures some { IfOk result (λ s. 0 < length s.entries) }
    ensures too_large { (m : ℕ) → (result ≡ Err (GenError.TooLarge m)) ↔ ((64 < n) × (m ≡ n)) }
    ensures refused { OnErr result (n ≤ 64 → result ≡ Err GenError.Memory) }
{
    if n > MOST_ROUNDS {
        return Err(GenError::TooLarge { n });
    }
    let mut setup = match Setup::new(alloc, LINES, STEPS) {
        Ok(setup) => setup,
        Err(error) => return Err(without_memory(error)),
    };
    for _ in 0..PROCESSORS {
        add_processor(alloc, &mut setup, n)?;
    }
    Ok(setup)
}
