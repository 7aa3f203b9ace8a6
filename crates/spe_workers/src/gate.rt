//! What a worker passes before each of its turns.

/// What each worker calls before each of its turns, with its number and the number of the turn, both from 0.
/// It may hold the worker up, and has no other part in the run.
pub trait Gate {
    fn pass(&self, worker: u32, turn: u32);
}

/// A gate that holds no worker up.
pub struct OpenGate;

impl Gate for OpenGate {
    fn pass(&self, _worker: u32, _turn: u32) {}
}
