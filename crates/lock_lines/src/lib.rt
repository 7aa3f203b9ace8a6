//! The reservations of lines of main memory: the line that each processor reserved last, and whether it still holds it.
#![tactic(auto)]

ghost use Rattle.std.specs.Prelude.{◌≡◌, ℕ, ◌<◌, ◌≤◌, ◌==◌, ◌&&◌, not, IfOk, Some, None, slice_set};
ghost use Rattle.cell_base.specs.Bits.{has_bit};
ghost use Rattle.lock_lines.specs.Logs.{Logs, no_logs, held};
ghost use Rattle.lock_lines.specs.Calls.{IsAbove, after_store, after_getllar, after_putllc, answer_of};
ghost use Rattle.lock_lines.specs.Versions.{Versions, opening_versions, is_reserved, line_held, line_reserved, stored_to, got, put};
ghost use Rattle.lock_lines.specs.Holders.{is_holder, IsLineCleared, IsSpeCleared};

use std::alloc::{AllocError, Global};
use std::marker::Model;

/// How many processors there can be: `holding` has a bit for each.
const MAX_SPES: usize = 16;

/// Out of memory. The reservations take none now, so no call returns it.
#[derive(Clone, Copy, Debug, PartialEq, Eq)]
pub enum LockError {
    Memory,
}

impl From<AllocError> for LockError {
    fn from(_: AllocError) -> LockError {
        LockError::Memory
    }
}

/// What became of a PUTLLC: it stored its line, or its processor didn't hold it.
#[derive(Clone, Copy, Debug, PartialEq, Eq)]
pub enum Lock {
    Stored,
    Lost,
}

/// Which processor holds which line. To a contract it is the numbers of processors and lines, the processors that hold a line, as
/// bits, of which that of processor p has the value 2^p, and the line that each processor reserved last.
#[derive(Drop)]
pub struct LockLines {
    spes: u8,
    lines: u32,
    // bit p: processor p still holds the line that it reserved last. A processor can hold no other, so there is no table of lines
    holding: u16,
    // the line that each processor reserved last, if it didn't give it up
    reserved: [Option<u32>; MAX_SPES],
}

impl Model for LockLines {
    ghost use Rattle.lock_lines.specs.Reservations.{Reservations};

    ghost Value = { Reservations };

    ghost use Rattle.lock_lines.specs.Seen.{reservations_of, IsSound};

    ghost view = { reservations_of };

    ghost invariant = { IsSound };
}

impl LockLines {
    ghost use Rattle.lock_lines.specs.Stands.{StandsFor, StandsForVersions, HasSameSize, line_count};

    /// No reservation, of 1 to 524,288 lines by 1 to 16 processors. Neither this nor a later call takes memory.
    pub fn new(_: Global, lines: u32, spes: u8) -> Result<LockLines, LockError>
        requires some { 1 ≤ lines }
        requires few { lines ≤ 524288 }
        requires any { 1 ≤ spes }
        requires bits { spes ≤ 16 }
        ensures lines { IfOk result (λ x. line_count x ≡ lines) }
        ensures spes { IfOk result (λ x. x.spes ≡ spes) }
        ensures logs { IfOk result (λ x. StandsFor x no_logs) }
        ensures versions { IfOk result (λ x. StandsForVersions x (opening_versions lines spes)) }
    {
        Ok(LockLines {
            spes,
            lines,
            holding: 0,
            reserved: [None; MAX_SPES],
        })
    }

    /// GETLLAR: the processor reserves the line in place of what it had reserved (CBEA, "MFC atomic update commands"; that there is
    /// one reservation a processor is this project's profile).
    pub fn getllar(&mut self, spe: u8, line: u32)
        requires spe { spe < self.old.spes }
        requires line { line < line_count self.old }
        ensures logs { (logs : Logs) (place : ℕ) → StandsFor self.old logs → IsAbove place logs → StandsFor self.new (after_getllar place spe line logs) }
        ensures versions { (v : Versions) → StandsForVersions self.old v → StandsForVersions self.new (got spe line v) }
        ensures size { HasSameSize self.old self.new }
    {
        self.reserved[usize::from(spe)] = Some(line);
        self.holding |= 1 << spe;
    }

    /// PUTLLC: Stored exactly where the processor holds the line. It gives up what it had reserved, and a store ends all reservations
    /// of the line (CBEA, "MFC atomic update commands").
    pub fn putllc(&mut self, spe: u8, line: u32) -> Lock
        requires spe { spe < self.old.spes }
        requires line { line < line_count self.old }
        ensures held { (logs : Logs) → StandsFor self.old logs → result ≡ answer_of (held logs spe line) }
        ensures logs { (logs : Logs) (place : ℕ) → StandsFor self.old logs → IsAbove place logs → StandsFor self.new (after_putllc place spe line logs) }
        ensures reserved { (v : Versions) → StandsForVersions self.old v → result ≡ answer_of (is_reserved v spe line) }
        ensures versions { (v : Versions) → StandsForVersions self.old v → StandsForVersions self.new (put spe line v) }
        ensures size { HasSameSize self.old self.new }
    {
        let held = self.held(spe, line);
        self.clear_spe(spe);
        if held {
            self.clear_line(line);
            Lock::Stored
        } else {
            Lock::Lost
        }
    }

    /// PUTLLUC: a store, which ends all reservations of the line (CBEA, "MFC atomic update commands").
    pub fn putlluc(&mut self, line: u32)
        requires { line < line_count self.old }
        ensures logs { (logs : Logs) (place : ℕ) → StandsFor self.old logs → IsAbove place logs → StandsFor self.new (after_store place line logs) }
        ensures versions { (v : Versions) → StandsForVersions self.old v → StandsForVersions self.new (stored_to line v) }
        ensures size { HasSameSize self.old self.new }
    {
        self.touched(line);
    }

    /// A store to the line, which ends all reservations of it, those of the storing processor too (this project's profile).
    pub fn touched(&mut self, line: u32)
        requires { line < line_count self.old }
        ensures logs { (logs : Logs) (place : ℕ) → StandsFor self.old logs → IsAbove place logs → StandsFor self.new (after_store place line logs) }
        ensures versions { (v : Versions) → StandsForVersions self.old v → StandsForVersions self.new (stored_to line v) }
        ensures size { HasSameSize self.old self.new }
    {
        self.clear_line(line);
    }

    /// Whether the processor holds the line.
    pub fn held(&self, spe: u8, line: u32) -> bool
        requires spe { spe < self.now.spes }
        requires line { line < line_count self.now }
        ensures logs { (logs : Logs) → StandsFor self.now logs → result ≡ held logs spe line }
        ensures versions { (v : Versions) → StandsForVersions self.now v → result ≡ is_reserved v spe line }
        ensures holder { result ≡ is_holder self.now spe line }
    {
        self.is_holding(spe) && self.reserved[usize::from(spe)] == Some(line)
    }

    /// The line that the processor holds. None comes exactly where it holds none.
    pub fn line_held(&self, spe: u8) -> Option<u32>
        requires { spe < self.now.spes }
        ensures { (v : Versions) → StandsForVersions self.now v → result ≡ line_held v spe }
    {
        if self.is_holding(spe) {
            self.reserved[usize::from(spe)]
        } else {
            None
        }
    }

    /// The line that the processor reserved last, held still or lost. None comes exactly where it reserved none, or gave that up.
    pub fn line_reserved(&self, spe: u8) -> Option<u32>
        requires { spe < self.now.spes }
        ensures { (v : Versions) → StandsForVersions self.now v → result ≡ line_reserved v spe }
    {
        self.reserved[usize::from(spe)]
    }

    /// The processors that hold the line, as bits, of which that of processor p has the value 2^p.
    pub fn holders(&self, line: u32) -> u16
        requires { line < line_count self.now }
        ensures logs { (logs : Logs) (p : ℕ) → StandsFor self.now logs → p < 16 → has_bit result p ≡ held logs p line }
        ensures versions { (v : Versions) (p : ℕ) → StandsForVersions self.now v → p < 16 → has_bit result p ≡ is_reserved v p line }
        ensures holders { (p : ℕ) → p < 16 → has_bit result p ≡ is_holder self.now p line }
    {
        // mostly nobody holds a line, and each store asks
        if self.holding == 0 {
            return 0;
        }
        let mut holders = 0;
        for spe in 0..self.spes {
            if self.held(spe, line) {
                holders |= 1 << spe;
            }
        }
        holders
    }

    /// Those of them that aren't processor `spe`.
    pub fn other_holders(&self, spe: u8, line: u32) -> u16
        requires spe { spe < self.now.spes }
        requires line { line < line_count self.now }
        ensures logs { (logs : Logs) (p : ℕ) → StandsFor self.now logs → p < 16 → has_bit result p ≡ (held logs p line && not (spe == p)) }
        ensures versions { (v : Versions) (p : ℕ) → StandsForVersions self.now v → p < 16 → has_bit result p ≡ (is_reserved v p line && not (spe == p)) }
    {
        // there are at most 16, so it has a bit
        let _ = &self.spes;
        self.holders(line) & !(1 << spe)
    }

    /// Whether the processor still holds the line that it reserved last.
    fn is_holding(&self, spe: u8) -> bool
        requires { spe < self.now.spes }
        ensures { result ≡ has_bit self.now.holding spe }
    {
        (self.holding >> spe) & 1 == 1
    }

    /// Ends all reservations of the line.
    fn clear_line(&mut self, line: u32)
        requires { line < line_count self.old }
        ensures holders { IsLineCleared line self.old self.new }
        ensures reserved { self.new.reserved ≡ self.old.reserved }
        ensures size { HasSameSize self.old self.new }
    {
        self.holding &= !self.holders(line);
    }

    /// Takes from the processor what it reserved.
    fn clear_spe(&mut self, spe: u8)
        requires { spe < self.old.spes }
        ensures holders { IsSpeCleared spe self.old self.new }
        ensures reserved { self.new.reserved ≡ slice_set self.old.reserved spe None }
        ensures size { HasSameSize self.old self.new }
    {
        self.reserved[usize::from(spe)] = None;
        self.holding &= !(1 << spe);
    }
}
