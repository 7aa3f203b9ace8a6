//! After which runs a hunt ends.

ghost use Rattle.std.specs.Prelude.{◌≡◌, ◌≤◌, ◌<◌, ◌==◌, ◌%◌, ℕ, false};
ghost use Rattle.hunt_command.specs.Words.{most_made};
ghost use Rattle.hunt_command.specs.Hunts.{ends_at, is_by_steps};

use crate::words::{DEFAULT_RUNS, most_made};
use hunt_tally::Hunted;

/// A hunt without `--runs` may end after each hundred runs, from `LEAST_RUNS` on: it does once its runs have `MOST_STEPS` steps together.
/// It counts steps and not seconds, so that the same words make the same runs.
const HUNDRED: u32 = 100;

const LEAST_RUNS: u32 = 200;

const MOST_STEPS: u64 = 20_000_000;

/// Whether a hunt ends after so many runs, which have so many steps together.
pub fn ends_at(asked: Option<u32>, runs: u32, steps: u64) -> bool
    ensures { result ≡ ends_at asked runs steps }
{
    match asked {
        Some(asked) => runs == asked,
        None => {
            runs == DEFAULT_RUNS || runs >= LEAST_RUNS && runs % HUNDRED == 0 && steps >= MOST_STEPS
        }
    }
}

/// The number of runs after the hundred to which the next run belongs.
fn hundred_end(made: u32) -> u32
    requires { made < 1000 }
    ensures after { made < result }
    ensures within { result ≤ 1000 }
    ensures hundred { (n : ℕ) → made < n → n < result → (n % 100 == 0) ≡ false }
{
    (made / HUNDRED + 1) * HUNDRED
}

/// After how many runs the hunt may end next.
pub fn next_end(asked: Option<u32>, made: u32) -> u32
    requires { made < most_made asked }
    ensures after { made < result }
    ensures within { result ≤ most_made asked }
    ensures next { (n steps : ℕ) → made < n → n < result → ends_at asked n steps ≡ false }
{
    match asked {
        Some(asked) => asked,
        None if made < LEAST_RUNS => LEAST_RUNS,
        None => hundred_end(made),
    }
}

/// Whether its steps ended a hunt that could have made more runs.
pub fn is_by_steps(asked: Option<u32>, hunted: &Hunted) -> bool
    ensures { result ≡ is_by_steps asked hunted.now }
{
    asked.is_none()
        && hunted.runs() < most_made(asked)
        && ends_at(asked, hunted.runs(), hunted.steps())
}
