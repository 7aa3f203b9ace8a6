//! The mailboxes between a processor and the outside: short queues of words, first in first out.
#![tactic(auto)]

ghost use Rattle.std.specs.Prelude.{◌≡◌, ◌<◌, ◌≤◌, ◌↔◌, List, ℕ, [], ◌∷◌, ◌++◌, length, OnOk, OnErr, IfErr, IsOk, IfSome, IsSome, IfNone, IsTrue};

use arrayvec::ArrayVec;
use std::marker::Model;

/// The mailbox had no free place; the value is handed back.
#[derive(Clone, Copy, Debug, PartialEq, Eq)]
pub struct Full {
    pub value: u32,
}

/// A mailbox of at most `N` values, the oldest first.
#[derive(Drop)]
pub struct Mailbox<const N: usize> {
    values: ArrayVec<u32, N>,
}

impl<const N: usize> Model for Mailbox<N> {
    ghost use Rattle.std.specs.Prelude.{◌≤◌, List, ℕ, length};

    ghost Value = { List ℕ };

    ghost view = { λ m. m.values.items };

    ghost invariant = { λ m. (length m.values.items ≤ N) × (N ≤ 16) };
}

impl<const N: usize> Mailbox<N> {
    /// An empty mailbox. It has at most 16 places.
    pub fn new() -> Mailbox<N>
        requires { N ≤ 16 }
        ensures { result ≡ [] }
    {
        Mailbox {
            values: ArrayVec::new(),
        }
    }

    /// How many values are there.
    pub fn len(&self) -> u32
        ensures count { result ≡ length self.now }
        ensures fits { result ≤ N }
    {
        self.values.len() as u32
    }

    /// Whether no value is there.
    pub fn is_empty(&self) -> bool
        ensures { IsTrue result ↔ (self.now ≡ []) }
    {
        self.values.is_empty()
    }

    /// The values, the oldest first.
    pub fn values(&self) -> &[u32]
        ensures { result.now ≡ self.now }
    {
        self.values.as_slice()
    }

    /// Puts a value behind the others, or hands it back exactly where `N` values are there.
    pub fn put(&mut self, value: u32) -> Result<(), Full>
        ensures variant { IsOk result ↔ (length self.old < N) }
        ensures ok { OnOk result (self.new ≡ self.old ++ value ∷ []) }
        ensures err { OnErr result (self.new ≡ self.old) }
        ensures full { OnErr result (length self.old ≡ N) }
        ensures handed_back { IfErr result (λ f. f.value ≡ value) }
    {
        if self.values.is_full() {
            return Err(Full { value });
        }
        self.values.push(value);
        Ok(())
    }

    /// Takes the oldest value; None exactly where no value is there.
    pub fn take(&mut self) -> Option<u32>
        ensures some { IfSome result (λ value. self.old ≡ value ∷ self.new) }
        ensures none { IfNone result ((self.old ≡ []) × (self.new ≡ [])) }
    {
        if self.values.is_empty() {
            return None;
        }
        Some(self.values.remove(0))
    }
}
