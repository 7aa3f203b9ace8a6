//! The queue of one processor's commands: sixteen places, the parts done of each command, and which may start.
#![tactic(auto)]

ghost use Rattle.std.specs.Prelude.{◌≡◌, ℕ, ◌+◌, ◌-◌, ◌<◌, ◌≤◌, ◌↔◌, List, [], ◌∷◌, ◌++◌, length, IfOk, OnOk, OnErr, IsOk, IfSome, IfNone, Some, slice_get, slice_index_or, slice_set, find, nat_le, nat_lt, ◌==◌, ◌&&◌, ◌||◌, not, false, filter, map, is_some};
ghost use Rattle.std.specs.List.{list_any, range_with_len};
ghost use Rattle.std.specs.Option.{option_and_then, option_map};
ghost use Rattle.mfc_command.specs.Order.{precedes};
ghost use Rattle.mfc_queue.specs.Places.{ArePlaces};
ghost use Rattle.mfc_queue.specs.At.{IsAt};
ghost use Rattle.cell_base.specs.Bits.{has_bit};
ghost use Rattle.mfc_queue.specs.Sets.{has_part, set_of};
ghost use Rattle.mfc_queue.specs.Calls.{Call, Issue, SetParts, Mark, Retire, issued, is_outstanding, outstanding, parts, is_marked, left, all_marked, may_begin, busy, has_outstanding};

mod part_set;
mod place_set;

use crate::part_set::PartSet;
use crate::place_set::PlaceSet;
use arrayvec::ArrayVec;
use mfc_command::{Command, Kind, Mark as OrderMark, precedes};

/// How many places a queue has.
const PLACES: usize = 16;

/// Sixteen commands are outstanding.
#[derive(Clone, Copy, Debug, PartialEq, Eq)]
pub struct QueueFull;

/// An outstanding command: its number and its place, how many parts it has, and which of them are done.
#[derive(Clone, Copy)]
struct Held {
    cmd: u32,
    place: u8,
    command: Command,
    parts: u32,
    done: PartSet,
    /// How many parts aren't done.
    left: u32,
    ghost tag: { command.tag < 32 },
    ghost few: { parts ≤ 129 },
    ghost counted: { left ≡ length (filter (λ k. not (has_part done.words k)) (range_with_len 0 parts)) },
}

impl Default for Held {
    fn default() -> Held {
        Held {
            cmd: 0,
            place: 0,
            command: Command {
                kind: Kind::Barrier,
                mark: OrderMark::Plain,
                tag: 0,
                ls: 0,
                ea: 0,
                size: 0,
            },
            parts: 0,
            done: PartSet::new(),
            left: 0,
        }
    }
}

impl Held {
    /// Whether the part is one of its own, and isn't done.
    fn has_left(&self, part: u32) -> bool
        ensures { result ≡ (nat_lt part self.now.parts && not (has_part self.now.done.words part)) }
    {
        part < self.parts && !self.done.has(part)
    }

    /// Marks the part as done, and answers whether all are done now.
    fn mark(&mut self, part: u32) -> bool
        requires { part < self.old.parts }
        ensures cmd { self.new.cmd ≡ self.old.cmd }
        ensures place { self.new.place ≡ self.old.place }
        ensures command { self.new.command ≡ self.old.command }
        ensures parts { self.new.parts ≡ self.old.parts }
        ensures done { (k : ℕ) → has_part self.new.done.words k ≡ (has_part self.old.done.words k || part == k) }
        ensures all { result ≡ (self.new.left == 0) }
    {
        if self.done.has(part) {
            return self.left == 0;
        }
        self.done.insert(part);
        self.left -= 1;
        self.left == 0
    }
}

/// An outstanding command, as one look finds it.
#[derive(Clone, Copy, Debug, PartialEq, Eq)]
pub struct Waiting {
    /// Its place, which no other has.
    pub place: u8,
    pub command: Command,
    /// Whether every earlier command that goes before it is complete.
    pub may_start: bool,
    /// How many of its parts weren't marked since its latest `set_parts`.
    pub left: u32,
}

/// The outstanding commands in the order of their numbers, the places that none of them has, how many commands were issued, and the tag
/// groups with a command outstanding.
///
/// For a command at place p, `before[p]` has the places of the earlier outstanding commands that go before it.
#[derive(Drop)]
pub struct Queue {
    issued: u32,
    held: ArrayVec<Held, 16>,
    vacant: ArrayVec<u8, 16>,
    before: [PlaceSet; 16],
    busy: u32,
    ghost places: { ArePlaces (map (λ h. h.place) held.items) vacant.items },
    ghost sets: { length before ≡ 16 },
    ghost groups: { busy ≡ set_of (map (λ h. h.command.tag) held.items) },
}

impl Queue {
    ghost use Rattle.mfc_queue.specs.Stands.{StandsFor, IsOneOf, IsSeen, HasPart, HasNumber, place_in, KeepsPlaces, KeepsOtherPlaces};

    /// A queue on which no call was made. It takes no memory, and no call does.
    pub fn new() -> Queue
        ensures { StandsFor result [] }
    {
        let vacant = [0, 1, 2, 3, 4, 5, 6, 7, 8, 9, 10, 11, 12, 13, 14, 15];
        Queue {
            issued: 0,
            held: ArrayVec::new(),
            vacant: ArrayVec::from_array_in((), vacant),
            before: [PlaceSet::new(); PLACES],
            busy: 0,
        }
    }

    /// The same queue once more.
    pub fn copy(&self) -> Queue
        ensures { result ≡ self.now }
    {
        let mut held = ArrayVec::new();
        let _ = held.try_extend_from_slice(&self.held);
        let mut vacant = ArrayVec::new();
        let _ = vacant.try_extend_from_slice(&self.vacant);
        Queue {
            issued: self.issued,
            held,
            vacant,
            before: self.before,
            busy: self.busy,
        }
    }

    /// How many commands were issued.
    pub fn issued(&self) -> u32
        ensures { (calls : List Call) → StandsFor self.now calls → result ≡ length (issued calls) }
    {
        self.issued
    }

    /// How many of sixteen places are free.
    pub fn free(&self) -> u32
        ensures { (calls : List Call) → StandsFor self.now calls → result ≡ 16 - length (outstanding calls) }
    {
        (PLACES - self.held.len()) as u32
    }

    /// Issues a command, and answers its number, which is how many were issued before.
    ///
    /// QueueFull comes exactly where sixteen are outstanding, and then nothing changes. Fewer than 1,000,000 were issued.
    pub fn issue(&mut self, c: Command) -> Result<u32, QueueFull>
        requires few { HasNumber self.old }
        requires tag { c.tag < 32 }
        ensures number { (calls : List Call) → StandsFor self.old calls → IfOk result (λ n. n ≡ length (issued calls)) }
        ensures issued { (calls : List Call) → StandsFor self.old calls → OnOk result (StandsFor self.new (calls ++ Issue c ∷ [])) }
        ensures full { (calls : List Call) → StandsFor self.old calls → IsOk result ↔ (length (outstanding calls) < 16) }
        ensures err { OnErr result (self.new ≡ self.old) }
        ensures places { IfOk result (KeepsOtherPlaces self.old self.new) }
    {
        let before = self.places_before(&c);
        let Some(place) = self.vacant.pop() else {
            return Err(QueueFull);
        };
        self.before[usize::from(place)] = before;
        let cmd = self.issued;
        self.issued = cmd + 1;
        self.busy |= 1 << c.tag;
        self.held.push(Held {
            cmd,
            place,
            command: c,
            parts: 0,
            done: PartSet::new(),
            left: 0,
        });
        Ok(cmd)
    }

    /// The places of the outstanding commands that go before a later one.
    fn places_before(&self, later: &Command) -> PlaceSet
        ensures { (place : ℕ) → has_bit result.bits place ≡ list_any (λ h. h.place == place && precedes h.command later.now) self.now.held.items }
    {
        let mut places = PlaceSet::new();
        for i in 0..self.held.len() {
            let h = self.held_at(i);
            if precedes(&h.command, later) {
                places.insert(h.place);
            }
        }
        places
    }

    /// The command at this index.
    fn held_at(&self, i: usize) -> &Held
        requires { i < length self.now.held.items }
        ensures { result.now ≡ slice_index_or self.now.held.items i result.now }
    {
        &self.held[i]
    }

    /// How far a command is behind the first one by its number. There it is held, where none between them was retired.
    fn distance(&self, cmd: u32) -> usize {
        if self.held.is_empty() {
            return 0;
        }
        cmd.saturating_sub(self.held_at(0).cmd) as usize
    }

    /// Where the command is held. Mostly that is found at once.
    fn index_of(&self, cmd: u32) -> Option<usize>
        ensures found { IfSome result (λ i. (i < length self.now.held.items) × ((d : _) → (slice_index_or self.now.held.items i d).cmd ≡ cmd)) }
        ensures none { IfNone result (list_any (λ n. n == cmd) (map (λ h. h.cmd) self.now.held.items) ≡ false) }
    {
        let i = self.distance(cmd);
        if i < self.held.len() && self.held_at(i).cmd == cmd {
            return Some(i);
        }
        self.search(cmd)
    }

    /// Where the command is held.
    fn search(&self, cmd: u32) -> Option<usize>
        ensures found { IfSome result (λ i. (i < length self.now.held.items) × ((d : _) → (slice_index_or self.now.held.items i d).cmd ≡ cmd)) }
        ensures none { IfNone result (list_any (λ n. n == cmd) (map (λ h. h.cmd) self.now.held.items) ≡ false) }
        ensures first { option_and_then (λ i. slice_get self.now.held.items i) result ≡ find (λ h. h.cmd == cmd) self.now.held.items }
    {
        for i in 0..self.held.len() {
            let h = self.held_at(i);
            if h.cmd == cmd {
                return Some(i);
            }
        }
        None
    }

    /// What a look at the command at this index finds.
    fn seen_at(&self, i: usize) -> Waiting
        requires { i < length self.now.held.items }
        ensures { (cmd : ℕ) → ((d : Held) → (slice_index_or self.now.held.items i d).cmd ≡ cmd) → IsSeen self.now cmd result }
    {
        let h = self.held_at(i);
        Waiting {
            place: h.place,
            command: h.command,
            may_start: self.before[usize::from(h.place)].is_empty(),
            left: h.left,
        }
    }

    /// The outstanding command at index `i`, by their numbers, with its number. None comes exactly behind the last one.
    pub fn outstanding_at(&self, i: usize) -> Option<(u32, Waiting)>
        ensures number { (calls : List Call) → StandsFor self.now calls → option_map (λ x. x.0) result ≡ slice_get (outstanding calls) i }
        ensures seen { IfSome result (λ x. IsSeen self.now x.0 x.1) }
    {
        if i >= self.held.len() {
            return None;
        }
        let h = self.held_at(i);
        Some((h.cmd, self.seen_at(i)))
    }

    /// The outstanding command of this number. None comes exactly where it isn't outstanding.
    pub fn look(&self, cmd: u32) -> Option<Waiting>
        ensures outstanding { (calls : List Call) → StandsFor self.now calls → is_some result ≡ is_outstanding calls cmd }
        ensures seen { IfSome result (IsSeen self.now cmd) }
    {
        match self.index_of(cmd) {
            Some(i) => Some(self.seen_at(i)),
            None => None,
        }
    }

    /// The same, and whether the command has the part left, which is one of its parts that wasn't marked since its latest `set_parts`.
    pub fn look_part(&self, cmd: u32, part: u32) -> Option<(Waiting, bool)>
        ensures outstanding { (calls : List Call) → StandsFor self.now calls → is_some result ≡ is_outstanding calls cmd }
        ensures seen { IfSome result (λ x. IsSeen self.now cmd x.0) }
        ensures left { (calls : List Call) → StandsFor self.now calls → IfSome result (λ x. x.1 ≡ (nat_lt part (parts calls cmd) && not (is_marked calls cmd part))) }
    {
        match self.index_of(cmd) {
            Some(i) => Some((self.seen_at(i), self.held_at(i).has_left(part))),
            None => None,
        }
    }

    /// The place of a command, below 16, or None exactly where the command isn't outstanding.
    ///
    /// A command keeps its place until it is retired, and no other outstanding command has it.
    pub fn place(&self, cmd: u32) -> Option<u32>
        ensures outstanding { (calls : List Call) → StandsFor self.now calls → is_some result ≡ is_outstanding calls cmd }
        ensures place { result ≡ place_in self.now cmd }
        ensures small { IfSome result (λ p. p < 16) }
        ensures own { IfSome result (λ p. (other : ℕ) → place_in self.now other ≡ Some p → other ≡ cmd) }
    {
        match self.search(cmd) {
            Some(i) => Some(u32::from(self.held_at(i).place)),
            None => None,
        }
    }

    /// An outstanding command.
    pub fn command(&self, cmd: u32) -> Command
        requires { IsOneOf self.now cmd }
        ensures command { (calls : List Call) → StandsFor self.now calls → slice_get (issued calls) cmd ≡ Some result }
        ensures tag { result.tag < 32 }
    {
        match self.index_of(cmd) {
            Some(i) => self.held_at(i).command,
            None => unreachable!(),
        }
    }

    /// The least number of an outstanding command that is this one or higher, or None exactly where there is none.
    pub fn outstanding_from(&self, cmd: u32) -> Option<u32>
        ensures { (calls : List Call) → StandsFor self.now calls → result ≡ find (nat_le cmd) (outstanding calls) }
    {
        for i in 0..self.held.len() {
            let h = self.held_at(i);
            if h.cmd >= cmd {
                return Some(h.cmd);
            }
        }
        None
    }

    /// Whether every earlier command that goes before this one is complete.
    pub fn may_start(&self, cmd: u32) -> bool
        requires { IsOneOf self.now cmd }
        ensures { (calls : List Call) → StandsFor self.now calls → result ≡ may_begin calls cmd }
    {
        match self.index_of(cmd) {
            Some(i) => self.before[usize::from(self.held_at(i).place)].is_empty(),
            None => unreachable!(),
        }
    }

    /// Begins the pieces of a command or element, at most 129, with none done.
    pub fn set_parts(&mut self, cmd: u32, n: u32)
        requires there { IsOneOf self.old cmd }
        requires few { n ≤ 129 }
        ensures stands { (calls : List Call) → StandsFor self.old calls → StandsFor self.new (calls ++ SetParts cmd n ∷ []) }
        ensures places { KeepsPlaces self.old self.new }
    {
        match self.index_of(cmd) {
            Some(i) => {
                let h = *self.held_at(i);
                let begun = Held {
                    cmd,
                    place: h.place,
                    command: h.command,
                    parts: n,
                    done: PartSet::new(),
                    left: n,
                };
                put(&mut self.held, i, begun);
            }
            None => unreachable!(),
        }
    }

    /// Whether the part, which is below the command's number of parts, was marked since its latest `set_parts`.
    pub fn done(&self, cmd: u32, part: u32) -> bool
        requires { HasPart self.now cmd part }
        ensures { (calls : List Call) → StandsFor self.now calls → result ≡ is_marked calls cmd part }
    {
        match self.index_of(cmd) {
            Some(i) => self.held_at(i).done.has(part),
            None => unreachable!(),
        }
    }

    /// How many parts an outstanding command has.
    pub fn parts(&self, cmd: u32) -> u32
        requires { IsOneOf self.now cmd }
        ensures { (calls : List Call) → StandsFor self.now calls → result ≡ parts calls cmd }
    {
        match self.index_of(cmd) {
            Some(i) => self.held_at(i).parts,
            None => unreachable!(),
        }
    }

    /// The part at place `n` of those that an outstanding command has left, in their order: its parts that weren't marked since
    /// its latest `set_parts`. Where `n` is behind the last one, Err says how far.
    pub fn left_at(&self, cmd: u32, n: u64) -> Result<u32, u64>
        requires { IsOneOf self.now cmd }
        ensures left { (calls : List Call) → StandsFor self.now calls → IsAt result n (left calls cmd) }
        ensures few { IfOk result (λ k. k < 129) }
    {
        match self.index_of(cmd) {
            Some(i) => {
                let h = self.held_at(i);
                h.done.missing_at(h.parts, n)
            }
            None => unreachable!(),
        }
    }

    /// Marks the part, which is below the command's number of parts, as done, and answers whether all are done now.
    pub fn mark(&mut self, cmd: u32, part: u32) -> bool
        requires { HasPart self.old cmd part }
        ensures stands { (calls : List Call) → StandsFor self.old calls → StandsFor self.new (calls ++ Mark cmd part ∷ []) }
        ensures places { KeepsPlaces self.old self.new }
        ensures all { (calls : List Call) → StandsFor self.old calls → result ≡ all_marked (calls ++ Mark cmd part ∷ []) cmd }
    {
        match self.index_of(cmd) {
            Some(i) => {
                let mut h = *self.held_at(i);
                let all = h.mark(part);
                put(&mut self.held, i, h);
                all
            }
            None => unreachable!(),
        }
    }

    /// Whether all parts of a command would be done with this one, which is below the command's number of parts.
    pub fn completes(&self, cmd: u32, part: u32) -> bool
        requires { HasPart self.now cmd part }
        ensures { (calls : List Call) → StandsFor self.now calls → result ≡ all_marked (calls ++ Mark cmd part ∷ []) cmd }
    {
        match self.index_of(cmd) {
            Some(i) => {
                let mut h = *self.held_at(i);
                h.mark(part)
            }
            None => unreachable!(),
        }
    }

    /// Ends the command, which is complete from now on. Its place becomes free.
    pub fn retire(&mut self, cmd: u32)
        requires { IsOneOf self.old cmd }
        ensures stands { (calls : List Call) → StandsFor self.old calls → StandsFor self.new (calls ++ Retire cmd ∷ []) }
        ensures places { KeepsOtherPlaces self.old self.new cmd }
    {
        match self.index_of(cmd) {
            Some(i) => {
                let h = self.held.remove(i);
                self.vacant.push(h.place);
                self.busy = groups_of(&self.held);
                remove_from_all(&mut self.before, h.place);
            }
            None => unreachable!(),
        }
    }

    /// Whether a command of the tag, which is below 32, is outstanding.
    pub fn outstanding(&self, tag: u8) -> bool
        requires { tag < 32 }
        ensures { (calls : List Call) → StandsFor self.now calls → result ≡ has_outstanding calls tag }
    {
        for i in 0..self.held.len() {
            let h = self.held_at(i);
            if h.command.tag == tag {
                return true;
            }
        }
        false
    }

    /// The tag groups with a command outstanding, as bits: group t is bit value 2^t.
    pub fn busy(&self) -> u32
        ensures bits { (calls : List Call) → StandsFor self.now calls → result ≡ busy calls }
        ensures groups { (calls : List Call) (tag : ℕ) → StandsFor self.now calls → has_bit result tag ≡ has_outstanding calls tag }
    {
        self.busy
    }

    /// The tag groups that are busy once an outstanding command is retired.
    pub fn busy_without(&self, cmd: u32) -> u32
        ensures { (calls : List Call) → StandsFor self.now calls → result ≡ busy (calls ++ Retire cmd ∷ []) }
    {
        let mut bits = 0;
        for i in 0..self.held.len() {
            let h = self.held_at(i);
            if h.cmd == cmd {
                continue;
            }
            bits |= 1 << h.command.tag;
        }
        bits
    }
}

/// Puts what is held at an index.
fn put(held: &mut ArrayVec<Held, 16>, i: usize, h: Held)
    requires { i < length held.old.items }
    ensures { held.new.items ≡ slice_set held.old.items i h }
{
    held[i] = h;
}

/// The tag groups of what is held, as bits.
fn groups_of(held: &ArrayVec<Held, 16>) -> u32
    ensures { result ≡ set_of (map (λ h. h.command.tag) held.now.items) }
{
    let mut bits = 0;
    for i in 0..held.len() {
        let tag = held[i].command.tag;
        bits |= 1 << tag;
    }
    bits
}

/// Takes the place out of all sets.
fn remove_from_all(sets: &mut [PlaceSet; 16], place: u8)
    requires many { length sets.old ≡ 16 }
    requires small { place < 16 }
    ensures many { length sets.new ≡ 16 }
    ensures each { (k p : ℕ) (d : PlaceSet) → k < 16 → p < 16 → has_bit (slice_index_or sets.new k d).bits p ≡ (has_bit (slice_index_or sets.old k d).bits p && not (place == p)) }
{
    for k in 0..PLACES {
        let mut set = sets[k];
        set.remove(place);
        sets[k] = set;
    }
}
