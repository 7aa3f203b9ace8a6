//! What a machine begins with.

ghost use Rattle.std.specs.Prelude.{All, ◌≡◌, ◌+◌, ◌*◌, ◌%◌, ◌^◌, ◌<◌, ◌≤◌, ◌↔◌, bit_or, [], ◌∷◌, ◌++◌, length, slice_set, Err, IfOk, IsTrue, OnErr, OnOk};
ghost use Rattle.spu_exec.specs.Places.{IsPlace};
ghost use Rattle.cell_base.specs.Bits.{has_bit};
ghost use Rattle.cell_signals.specs.Registers.{number_of};
ghost use Rattle.cell_machine.specs.Limits.{AreMachineLimits, FitsShow, MayShow, FitsAction, MayAct, IsRegister, shown, shown_memory, IsOpening};
ghost use Rattle.cell_machine.specs.Opening.{is_or as is_or_register};
ghost use Rattle.cell_machine.specs.declared.setup.SetupError.TheVariants as setup_error;

use cell_host::{HostAction, MAX_ACTIONS};
use local_store::STORE_BYTES;
use main_memory::LINE_BYTES;
use std::alloc::{AllocError, AllocFailed, Global};
use std::marker::Model;

/// How many processors a machine may have.
const MOST_PROCESSORS: usize = 16;
/// How many lines of 128 bytes its memory may have.
const MOST_LINES: u32 = 524_288;
/// How many steps a run may have.
const MOST_STEPS: u32 = 1_000_000;

/// How many ranges may be shown, and how many bytes each may have.
const MOST_SHOWS: usize = 64;

const MOST_SHOWN: u32 = 4096;

/// How many bytes a host action may store.
const MOST_STORED: u32 = 16;

/// A range that the states of a run show: of main memory, or of a processor's local store.
#[derive(Clone, Copy, Debug, PartialEq, Eq)]
pub enum Show {
    Memory { at: u32, len: u32 },
    Local { spe: u8, at: u32, len: u32 },
}

/// Bytes placed in a processor's local store, from an address on.
#[derive(Drop)]
pub struct PlacedBytes {
    pub spe: u8,
    pub at: u32,
    pub bytes: Vec<u8>,
}

/// Bytes for main memory.
#[derive(Drop)]
pub(crate) struct MemoryBytes {
    pub(crate) at: u32,
    pub(crate) bytes: Vec<u8>,
}

/// What a machine begins with: memory lines, a budget of steps, processors with their start addresses,
/// the bytes placed in their local stores and in main memory, the host's script, and the ranges that the states show.
#[derive(Drop)]
pub struct Setup {
    pub(crate) lines: u32,
    pub(crate) budget: u32,
    pub(crate) entries: Vec<u32>,
    /// The signal registers in OR mode, as bits: 2 q + r - 1 is the bit of register r of processor q.
    pub(crate) or_modes: u32,
    pub(crate) placed: Vec<PlacedBytes>,
    pub(crate) memory: Vec<MemoryBytes>,
    pub(crate) actions: Vec<HostAction>,
    shows: Vec<Show>,
    alloc: Global,
}

impl Model for Setup {
    ghost use Rattle.cell_machine.specs.Opening.{Opening};

    ghost Value = { Opening };

    ghost use Rattle.cell_machine.specs.Limits.{shown, shown_memory, IsOpening};

    ghost view = { λ s. record { lines = s.lines; budget = s.budget; entries = s.entries.items; or_modes = s.or_modes; placed = shown s.placed.items; memory = shown_memory s.memory.items; actions = s.actions.items; shows = s.shows.items } };

    ghost invariant = { λ s. IsOpening (record { lines = s.lines; budget = s.budget; entries = s.entries.items; or_modes = s.or_modes; placed = shown s.placed.items; memory = shown_memory s.memory.items; actions = s.actions.items; shows = s.shows.items }) };
}

/// Why a call of a Setup refused.
#[derive(Clone, Copy, Debug, PartialEq, Eq)]
pub enum SetupError {
    /// A number is outside its limits, a range doesn't fit, or a processor isn't there.
    Limit,
    Memory,
}

impl From<AllocError> for SetupError {
    ghost from_gives = { λ _ e. e ≡ setup_error.Memory };

    fn from(_: AllocError) -> SetupError {
        SetupError::Memory
    }
}

impl<T: Drop> From<AllocFailed<T>> for SetupError {
    ghost from_gives = { λ _ e. e ≡ setup_error.Memory };

    fn from(_: AllocFailed<T>) -> SetupError {
        SetupError::Memory
    }
}

/// The same bytes for processors' stores, in their order.
fn copy_placed(alloc: Global, pieces: &[PlacedBytes]) -> Result<Vec<PlacedBytes>, SetupError>
    ensures same { IfOk result (λ copies. shown copies.items ≡ shown pieces.now) }
    ensures memory { OnErr result (result ≡ Err SetupError.Memory) }
{
    let mut copies = Vec::new(alloc);
    for piece in pieces {
        let bytes = piece.bytes.to_vec(alloc)?;
        copies.push(PlacedBytes {
            spe: piece.spe,
            at: piece.at,
            bytes,
        })?;
    }
    Ok(copies)
}

/// The same bytes for main memory, in their order.
fn copy_memory(alloc: Global, pieces: &[MemoryBytes]) -> Result<Vec<MemoryBytes>, SetupError>
    ensures same { IfOk result (λ copies. shown_memory copies.items ≡ shown_memory pieces.now) }
    ensures memory { OnErr result (result ≡ Err SetupError.Memory) }
{
    let mut copies = Vec::new(alloc);
    for piece in pieces {
        let bytes = piece.bytes.to_vec(alloc)?;
        copies.push(MemoryBytes {
            at: piece.at,
            bytes,
        })?;
    }
    Ok(copies)
}

/// Whether a signal register has this number.
fn is_register(register: u8) -> bool
    ensures { IsTrue result ↔ IsRegister register }
{
    register == 1 || register == 2
}

/// Whether a signal register is in OR mode.
pub(crate) fn is_or(or_modes: u32, spe: u8, register: u8) -> bool
    requires { IsRegister register }
    ensures { result ≡ has_bit or_modes (number_of spe register) }
{
    if spe >= 16 {
        return false;
    }
    (or_modes >> (2 * spe + register - 1)) & 1 == 1
}

impl Setup {
    /// A setup with no processor, of 1 to 524,288 lines and with a budget of 1 to 1,000,000 steps; `Limit` exactly outside of these.
    /// It takes no memory.
    pub fn new(alloc: Global, lines: u32, budget: u32) -> Result<Setup, SetupError>
        ensures made { IfOk result (λ s. s ≡ record { lines = lines; budget = budget; entries = []; or_modes = 0; placed = []; memory = []; actions = []; shows = [] }) }
        ensures limits { OnOk result (AreMachineLimits lines budget) }
        ensures refused { OnErr result ((result ≡ Err SetupError.Limit) × (AreMachineLimits lines budget → ⊥)) }
    {
        if lines == 0 || lines > MOST_LINES || budget == 0 || budget > MOST_STEPS {
            return Err(SetupError::Limit);
        }
        Ok(Setup {
            lines,
            budget,
            entries: Vec::new(alloc),
            or_modes: 0,
            placed: Vec::new(alloc),
            memory: Vec::new(alloc),
            actions: Vec::new(alloc),
            shows: Vec::new(alloc),
            alloc,
        })
    }

    /// A setup with the same contents, which takes its memory from `alloc`. Want of memory is its only refusal.
    pub fn copy(&self, alloc: Global) -> Result<Setup, SetupError>
        ensures same { IfOk result (λ s. s ≡ self.now) }
        ensures memory { OnErr result (result ≡ Err SetupError.Memory) }
    {
        Ok(Setup {
            lines: self.lines,
            budget: self.budget,
            entries: self.entries.to_vec(alloc)?,
            or_modes: self.or_modes,
            placed: copy_placed(alloc, &self.placed)?,
            memory: copy_memory(alloc, &self.memory)?,
            actions: self.actions.to_vec(alloc)?,
            shows: self.shows.to_vec(alloc)?,
            alloc,
        })
    }

    /// Adds a processor that starts at address 0, and answers its number, counted from 0. `Limit` where sixteen are there.
    pub fn add_spe(&mut self) -> Result<u8, SetupError>
        ensures added { OnOk result (self.new ≡ record self.old { entries = self.old.entries ++ 0 ∷ [] }) }
        ensures number { IfOk result (λ n. n ≡ length self.old.entries) }
        ensures limit { (result ≡ Err SetupError.Limit) ↔ (length self.old.entries ≡ 16) }
        ensures err { OnErr result (self.new ≡ self.old) }
    {
        let number = self.entries.len();
        if number >= MOST_PROCESSORS {
            return Err(SetupError::Limit);
        }
        if self.entries.push(0).is_err() {
            return Err(SetupError::Memory);
        }
        Ok(number as u8)
    }

    /// Places bytes in the store of a processor from an address on; later bytes replace earlier ones.
    /// `Limit` where the processor isn't there or the bytes don't fit the store.
    pub fn place(&mut self, spe: u8, at: u32, bytes: &[u8]) -> Result<(), SetupError>
        ensures placed { OnOk result (self.new ≡ record self.old { placed = self.old.placed ++ record { spe = spe; at = at; bytes = bytes.now } ∷ [] }) }
        ensures limit { (result ≡ Err SetupError.Limit) ↔ (spe < length self.old.entries → at + length bytes.now ≤ 262144 → ⊥) }
        ensures err { OnErr result (self.new ≡ self.old) }
    {
        if spe as usize >= self.entries.len()
            || bytes.len() > STORE_BYTES
            || at as usize > STORE_BYTES - bytes.len()
        {
            return Err(SetupError::Limit);
        }
        let Ok(copy) = bytes.to_vec(self.alloc) else {
            return Err(SetupError::Memory);
        };
        if self
            .placed
            .push(PlacedBytes {
                spe,
                at,
                bytes: copy,
            })
            .is_err()
        {
            return Err(SetupError::Memory);
        }
        Ok(())
    }

    /// The bytes placed in local stores, in the order in which they were placed; each fits its store.
    pub fn placed(&self) -> &[PlacedBytes]
        ensures placed { shown result.now ≡ self.now.placed }
        ensures opening { IsOpening self.now }
    {
        self.placed.as_slice()
    }

    /// Places bytes in main memory from an address on; later bytes replace earlier ones. `Limit` where they don't fit it.
    pub fn place_memory(&mut self, at: u32, bytes: &[u8]) -> Result<(), SetupError>
        ensures placed { OnOk result (self.new ≡ record self.old { memory = self.old.memory ++ record { at = at; bytes = bytes.now } ∷ [] }) }
        ensures limit { (result ≡ Err SetupError.Limit) ↔ (at + length bytes.now ≤ 128 * self.old.lines → ⊥) }
        ensures err { OnErr result (self.new ≡ self.old) }
    {
        let size = (LINE_BYTES * self.lines) as usize;
        if bytes.len() > size || at as usize > size - bytes.len() {
            return Err(SetupError::Limit);
        }
        let Ok(copy) = bytes.to_vec(self.alloc) else {
            return Err(SetupError::Memory);
        };
        if self.memory.push(MemoryBytes { at, bytes: copy }).is_err() {
            return Err(SetupError::Memory);
        }
        Ok(())
    }

    /// Adds the next action of the host's script. `Limit` where 4,096 are there, its processor isn't there, it is a store
    /// that doesn't have 1 to 16 bytes within one line of 128 bytes of the memory, or a signal to a register other than 1 and 2.
    pub fn add_action(&mut self, a: HostAction) -> Result<(), SetupError>
        ensures added { OnOk result (self.new ≡ record self.old { actions = self.old.actions ++ a ∷ [] }) }
        ensures limit { (result ≡ Err SetupError.Limit) ↔ (MayAct self.old a → ⊥) }
        ensures err { OnErr result (self.new ≡ self.old) }
    {
        if self.actions.len() >= MAX_ACTIONS || !self.fits_action(a) {
            return Err(SetupError::Limit);
        }
        if self.actions.push(a).is_err() {
            return Err(SetupError::Memory);
        }
        Ok(())
    }

    /// Whether an action's processor and register are there, or its bytes are 1 to 16 within one line of the memory.
    fn fits_action(&self, a: HostAction) -> bool
        ensures { IsTrue result ↔ FitsAction self.now.lines (length self.now.entries) a }
    {
        match a {
            HostAction::Send { spe, .. } => self.has_spe(spe),
            HostAction::Take { spe } => self.has_spe(spe),
            HostAction::TakeIntr { spe } => self.has_spe(spe),
            HostAction::Store { ea, len, .. } => self.fits_in_line(ea, len),
            HostAction::Await { spe } => self.has_spe(spe),
            HostAction::Signal { spe, register, .. } => self.has_spe(spe) && is_register(register),
        }
    }

    fn has_spe(&self, spe: u8) -> bool
        ensures there { IsTrue result ↔ (spe < length self.now.entries) }
        ensures small { IsTrue result → spe < 16 }
    {
        (spe as usize) < self.entries.len()
    }

    /// Whether so many bytes are 1 to 16 within one line of the memory.
    fn fits_in_line(&self, ea: u32, len: u8) -> bool
        ensures { IsTrue result ↔ ((0 < len) × (len ≤ 16) × (ea % 128 + len ≤ 128) × (ea + len ≤ 128 * self.now.lines)) }
    {
        let len = u32::from(len);
        let end = u64::from(ea) + u64::from(len);
        0 < len
            && len <= MOST_STORED
            && ea % LINE_BYTES + len <= LINE_BYTES
            && end <= 128 * u64::from(self.lines)
    }

    /// The host's script; each action fits.
    pub fn actions(&self) -> &[HostAction]
        ensures actions { result.now ≡ self.now.actions }
        ensures few { length self.now.actions ≤ 4096 }
        ensures fits { All (FitsAction self.now.lines (length self.now.entries)) self.now.actions }
    {
        self.actions.as_slice()
    }

    /// Makes a processor start at an address. `Limit` where the processor isn't there, or the address is no multiple of 4
    /// below 262,144.
    pub fn set_entry(&mut self, spe: u8, at: u32) -> Result<(), SetupError>
        ensures set { OnOk result (self.new ≡ record self.old { entries = slice_set self.old.entries spe at }) }
        ensures limit { (result ≡ Err SetupError.Limit) ↔ (spe < length self.old.entries → IsPlace at → ⊥) }
        ensures only { OnErr result (result ≡ Err SetupError.Limit) }
        ensures err { OnErr result (self.new ≡ self.old) }
    {
        if spe as usize >= self.entries.len() || at as usize >= STORE_BYTES || at % 4 != 0 {
            return Err(SetupError::Limit);
        }
        self.entries[spe as usize] = at;
        Ok(())
    }

    /// Puts signal register 1 or 2 of a processor into OR mode. `Limit` where the processor isn't there, or the register is another.
    pub fn set_or_mode(&mut self, spe: u8, register: u8) -> Result<(), SetupError>
        ensures set { OnOk result (self.new ≡ record self.old { or_modes = bit_or self.old.or_modes (2 ^ number_of spe register) }) }
        ensures limit { (result ≡ Err SetupError.Limit) ↔ (spe < length self.old.entries → IsRegister register → ⊥) }
        ensures only { OnErr result (result ≡ Err SetupError.Limit) }
        ensures err { OnErr result (self.new ≡ self.old) }
    {
        if !self.has_spe(spe) || !is_register(register) {
            return Err(SetupError::Limit);
        }
        self.or_modes |= 1 << (2 * spe + register - 1);
        Ok(())
    }

    /// Whether signal register 1 or 2 of a processor is in OR mode.
    pub fn has_or_mode(&self, spe: u8, register: u8) -> bool
        requires { IsRegister register }
        ensures { result ≡ is_or_register self.now spe register }
    {
        is_or(self.or_modes, spe, register)
    }

    /// Adds a range that the states show. `Limit` where 64 are there, it has no byte or more than 4,096, it doesn't fit,
    /// or its processor isn't there.
    pub fn add_show(&mut self, s: Show) -> Result<(), SetupError>
        ensures added { OnOk result (self.new ≡ record self.old { shows = self.old.shows ++ s ∷ [] }) }
        ensures limit { (result ≡ Err SetupError.Limit) ↔ (MayShow self.old s → ⊥) }
        ensures err { OnErr result (self.new ≡ self.old) }
    {
        if self.shows.len() >= MOST_SHOWS || !self.fits_show(s) {
            return Err(SetupError::Limit);
        }
        if self.shows.push(s).is_err() {
            return Err(SetupError::Memory);
        }
        Ok(())
    }

    /// Whether a range has 1 to 4,096 bytes and lies in the memory or the store that it names.
    fn fits_show(&self, s: Show) -> bool
        ensures { IsTrue result ↔ FitsShow self.now.lines (length self.now.entries) s }
    {
        match s {
            Show::Memory { at, len } => {
                let end = u64::from(at) + u64::from(len);
                0 < len && len <= MOST_SHOWN && end <= 128 * u64::from(self.lines)
            }
            Show::Local { spe, at, len } => {
                let end = at as usize + len as usize;
                let is_there = (spe as usize) < self.entries.len();
                is_there && 0 < len && len <= MOST_SHOWN && end <= STORE_BYTES
            }
        }
    }

    /// The ranges that the states show, in their order; each fits.
    pub fn shows(&self) -> &[Show]
        ensures shows { result.now ≡ self.now.shows }
        ensures few { length self.now.shows ≤ 64 }
        ensures fits { All (FitsShow self.now.lines (length self.now.entries)) self.now.shows }
    {
        self.shows.as_slice()
    }

    /// How many processors there are.
    pub fn spes(&self) -> u8
        ensures count { result ≡ length self.now.entries }
        ensures few { result ≤ 16 }
    {
        self.entries.len() as u8
    }

    /// How many lines of 128 bytes the memory has.
    pub fn lines(&self) -> u32
        ensures { result ≡ self.now.lines }
    {
        self.lines
    }

    /// How many steps a run may have, at most 1,000,000.
    pub fn budget(&self) -> u32
        ensures budget { result ≡ self.now.budget }
        ensures few { result ≤ 1000000 }
    {
        self.budget
    }
}
