//! The host script: the actions of the outside, done one after the other.
#![tactic(auto)]

ghost use Rattle.std.specs.Prelude.{◌≡◌, ◌<◌, ◌≤◌, List, ℕ, [], length, IfOk, slice_get, is_some, count_by};
ghost use Rattle.cell_host.specs.Script.{opening, advanced, next_takes, takes, ArePlaced};

use std::alloc::{AllocError, Global};
use std::marker::Model;

/// The most actions that a script can have.
pub const MAX_ACTIONS: usize = 4096;

/// There was no memory for the script.
#[derive(Clone, Copy, Debug, PartialEq, Eq)]
pub enum HostError {
    Memory,
}

impl From<AllocError> for HostError {
    fn from(_: AllocError) -> HostError {
        HostError::Memory
    }
}

/// One action of the outside. Processors are named by their numbers from 0.
#[derive(Clone, Copy, Debug, PartialEq, Eq)]
pub enum HostAction {
    /// Puts a value into the inbound mailbox.
    Send { spe: u8, value: u32 },
    /// Takes a value from the outbound mailbox.
    Take { spe: u8 },
    /// Takes a value from the outbound interrupt mailbox.
    TakeIntr { spe: u8 },
    /// Stores the first `len` of the bytes to main memory, from address `ea` on.
    Store { ea: u32, len: u8, bytes: [u8; 16] },
    /// Waits until the processor has ceased to run.
    Await { spe: u8 },
    /// Delivers a value to signal register 1 or 2.
    Signal { spe: u8, register: u8, value: u32 },
}

/// A value that the action of this number took, counted from 0.
#[derive(Clone, Copy, Debug, PartialEq, Eq)]
pub struct Took {
    pub action: u32,
    pub value: u32,
}

/// A script, how many of its actions were done, and the values that these took.
#[derive(Drop)]
pub struct Host {
    script: Vec<HostAction>,
    done: u32,
    took: Vec<Took>,
}

impl Model for Host {
    ghost use Rattle.std.specs.Prelude.{vec_len, vec_capacity};
    ghost use Rattle.cell_host.specs.Script.{Progress, IsSound, ArePlaced};

    ghost Value = { Progress };

    ghost view = { λ h. record { script = h.script.items; done = h.done; took = h.took.items } };

    ghost invariant = { λ h. IsSound h.script.items h.done (vec_len h.took) (vec_capacity h.took) × ArePlaced h.done h.took.items };
}

impl Host {
    /// The script with none of its actions done, which has at most 4,096 of them.
    ///
    /// It has room for all values that the actions may take, so that `advance` needs none.
    pub fn new(alloc: Global, script: &[HostAction]) -> Result<Host, HostError>
        requires { length script.now ≤ MAX_ACTIONS }
        ensures { IfOk result (λ h. h ≡ opening script.now) }
    {
        let took = Vec::with_capacity(alloc, takes_in(script))?;
        Ok(Host {
            script: script.to_vec(alloc)?,
            done: 0,
            took,
        })
    }

    /// The action that comes next, or None exactly where every action was done.
    pub fn next(&self) -> Option<HostAction>
        ensures { result ≡ slice_get self.now.script self.now.done }
    {
        self.script.get(self.done as usize).copied()
    }

    /// Counts the next action as done. Where it takes a value, `took` is that value, and else None.
    pub fn advance(&mut self, took: Option<u32>)
        requires left { self.old.done < length self.old.script }
        requires taken { is_some took ≡ next_takes self.old }
        ensures { self.new ≡ advanced self.old took }
    {
        let action = self.done;
        self.done = action + 1;
        if let Some(value) = took {
            let _ = self.took.push(Took { action, value });
        }
    }

    /// How many actions were done.
    pub fn place(&self) -> u32
        ensures count { result ≡ self.now.done }
        ensures within { result ≤ length self.now.script }
        ensures few { length self.now.script ≤ MAX_ACTIONS }
    {
        self.done
    }

    /// The values that were taken, the earliest first.
    pub fn took(&self) -> &[Took]
        ensures took { result.now ≡ self.now.took }
        ensures few { length result.now ≤ MAX_ACTIONS }
        ensures placed { ArePlaced MAX_ACTIONS result.now }
    {
        self.took.as_slice()
    }
}

/// How many actions of the script take a value.
fn takes_in(script: &[HostAction]) -> usize
    ensures { result ≡ count_by takes script.now }
{
    script.iter().filter(|action| takes(action)).count()
}

/// Whether the action takes a value.
fn takes(action: &HostAction) -> bool
    ensures { result ≡ takes action.now }
{
    matches!(
        action,
        HostAction::Take { .. } | HostAction::TakeIntr { .. }
    )
}
