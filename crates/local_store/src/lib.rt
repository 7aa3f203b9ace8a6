//! The local store of a processor.
#![tactic(auto)]

ghost use Rattle.std.specs.Prelude.{◌≡◌, ◌+◌, ◌%◌, ◌<◌, ◌≤◌, ℕ, List, length, slice_range, IfOk};
ghost use Rattle.std.specs.Vec.{vec_capacity};
ghost use Rattle.cell_base.specs.Bytes.{put, zeros};
ghost use Rattle.local_store.specs.Store.{line_of, quad_at, word_at, with_zeros};

use cell_base::Quad;
use std::alloc::{AllocError, Global};
use std::marker::Model;

/// How many bytes a local store has.
pub const STORE_BYTES: usize = 262_144;

/// Bytes become kept in blocks of so many, so that it is done seldom.
const BLOCK: usize = 1024;

/// There was no memory for the store.
#[derive(Clone, Copy, Debug, PartialEq, Eq)]
pub enum StoreError {
    Memory,
}

impl From<AllocError> for StoreError {
    fn from(_: AllocError) -> StoreError {
        StoreError::Memory
    }
}

/// The 262,144 bytes of a processor's local store.
#[derive(Drop)]
pub struct LocalStore {
    /// The bytes up to the highest that was written, at least: those behind them are zero. There is room for all.
    bytes: Vec<u8>,
}

impl Model for LocalStore {
    ghost use Rattle.std.specs.Prelude.{◌≡◌, ◌≤◌, ◌%◌, List, ℕ, length};
    ghost use Rattle.std.specs.Vec.{vec_capacity};
    ghost use Rattle.local_store.specs.Store.{with_zeros};

    ghost Value = { List ℕ };

    ghost view = { λ s. with_zeros s.bytes.items };

    ghost invariant = { λ s. (length s.bytes.items % 1024 ≡ 0) × (length s.bytes.items ≤ 262144) × (262144 ≤ vec_capacity s.bytes) };
}

impl LocalStore {
    /// A store of zero bytes.
    pub fn new(alloc: Global) -> Result<LocalStore, StoreError>
        ensures { IfOk result (λ s. s ≡ zeros 262144) }
    {
        let bytes = Vec::with_capacity(alloc, STORE_BYTES)?;
        Ok(LocalStore { bytes })
    }

    /// The quadword that holds an address, of which the bits outside 0x3FFF0 are ignored.
    pub fn quad(&self, at: u32) -> Quad
        ensures { result ≡ quad_at self.now at }
    {
        let at = line_of(at) as usize;
        let mut quad = [0; 16];
        if at >= self.bytes.len() {
            return Quad::of_bytes(&quad);
        }
        quad.copy_from_slice(&self.bytes[at..at + 16]);
        Quad::of_bytes(&quad)
    }

    /// Puts a quadword where an address stands, of which the bits outside 0x3FFF0 are ignored.
    pub fn set_quad(&mut self, at: u32, q: Quad)
        ensures { self.new ≡ put self.old (line_of at) q }
    {
        let line = line_of(at) as usize;
        if line >= self.bytes.len() {
            return self.put_past(at, q);
        }
        self.bytes[line..line + 16].copy_from_slice(&q.bytes());
    }

    /// The same behind the kept bytes: in a function of its own, since it is seldom so.
    #[inline(never)]
    fn put_past(&mut self, at: u32, q: Quad)
        ensures { self.new ≡ put self.old (line_of at) q }
    {
        let at = line_of(at) as usize;
        reach(&mut self.bytes, at + 16);
        self.bytes[at..at + 16].copy_from_slice(&q.bytes());
    }

    /// The big-endian word at an address, which is a multiple of 4 below 262,144.
    pub fn word(&self, at: u32) -> u32
        requires aligned { at % 4 ≡ 0 }
        requires within { at < 262144 }
        ensures { result ≡ word_at self.now at }
    {
        let at = at as usize;
        if at >= self.bytes.len() {
            return 0;
        }
        let mut word = [0; 4];
        word.copy_from_slice(&self.bytes[at..at + 4]);
        u32::from_be_bytes(word)
    }

    /// Copies the bytes from an address on. The range has to lie in the store.
    pub fn copy_out(&self, at: u32, into: &mut [u8])
        requires { at + length into.old ≤ 262144 }
        ensures { into.new ≡ slice_range self.now at (at + length into.old) }
    {
        let at = at as usize;
        let end = at + into.len();
        if end <= self.bytes.len() {
            into.copy_from_slice(&self.bytes[at..end]);
            return;
        }
        copy_past(&self.bytes, at, into);
    }

    /// Copies bytes to an address on, and leaves the others. The range has to lie in the store.
    pub fn copy_in(&mut self, at: u32, from: &[u8])
        requires { at + length from.now ≤ 262144 }
        ensures { self.new ≡ put self.old at from.now }
    {
        let at = at as usize;
        let end = at + from.len();
        reach(&mut self.bytes, end);
        self.bytes[at..end].copy_from_slice(from);
    }
}

/// Keeps the bytes up to a place, at least: those that weren't kept are zero.
#[inline(always)]
fn reach(bytes: &mut Vec<u8>, end: usize)
    requires end { end ≤ 262144 }
    requires blocks { length bytes.old.items % 1024 ≡ 0 }
    requires within { length bytes.old.items ≤ 262144 }
    requires room { 262144 ≤ vec_capacity bytes.old }
    ensures same { with_zeros bytes.new.items ≡ with_zeros bytes.old.items }
    ensures end { end ≤ length bytes.new.items }
    ensures blocks { length bytes.new.items % 1024 ≡ 0 }
    ensures within { length bytes.new.items ≤ 262144 }
    ensures room { 262144 ≤ vec_capacity bytes.new }
{
    if bytes.len() < end {
        add_zeros(bytes, end.div_ceil(BLOCK) * BLOCK);
    }
}

/// Keeps so many bytes.
#[inline(never)]
fn add_zeros(bytes: &mut Vec<u8>, count: usize)
    requires more { length bytes.old.items ≤ count }
    requires within { count ≤ 262144 }
    requires room { 262144 ≤ vec_capacity bytes.old }
    ensures same { with_zeros bytes.new.items ≡ with_zeros bytes.old.items }
    ensures count { length bytes.new.items ≡ count }
    ensures room { 262144 ≤ vec_capacity bytes.new }
{
    // There is room for all, so it isn't refused.
    let _ = bytes.resize(count, 0);
}

/// Copies bytes from a place on, those that aren't kept as zeros.
#[inline(never)]
fn copy_past(bytes: &[u8], at: usize, into: &mut [u8])
    requires within { length bytes.now ≤ 262144 }
    requires range { at + length into.old ≤ 262144 }
    requires past { length bytes.now < at + length into.old }
    ensures { into.new ≡ slice_range (with_zeros bytes.now) at (at + length into.old) }
{
    into.fill(0);
    if at < bytes.len() {
        let kept = &bytes[at..];
        into[..kept.len()].copy_from_slice(kept);
    }
}

/// The address of the quadword that holds an address, of which the bits outside 0x3FFF0 are ignored.
#[inline(always)]
pub fn line_of(at: u32) -> u32
    ensures value { result ≡ line_of at }
    ensures within { result + 16 ≤ 262144 }
{
    at & 0x3_fff0
}
