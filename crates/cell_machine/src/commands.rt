//! The queued commands of a processor, and how far they have come.

ghost use Rattle.std.specs.Prelude.{◌≡◌, ◌≢◌, ℕ, ◌+◌, ◌++◌, ◌<◌, ◌≤◌, [], ◌∷◌, length, is_some, true, false, None, Some, List, IfSome, IfNone, IsSome, slice_get, filter_map, if◌then◌else◌};
ghost use Rattle.std.specs.Bool.{OnTrue};
ghost use Rattle.mfc_command.specs.declared.command.Command.{Command};
ghost use Rattle.mfc_command.specs.declared.command.Order.TheVariants.{Queued};
ghost use Rattle.mfc_command.specs.Check.{OrderFits};
ghost use Rattle.mfc_command.specs.Order.{is_list};
ghost use Rattle.mfc_lists.specs.declared.Element.{Element};
ghost use Rattle.mfc_lists.specs.Readings.{Reading, StandsFor as StandsForReading, current, finished, with_element, current_of, has_next, is_complete as is_complete_reading};
ghost use Rattle.mfc_queue.specs.Calls.{Call, Retire, outstanding, busy};
ghost use Rattle.mfc_queue.specs.Stands.{StandsFor, IsOneOf, IsSeen};
ghost use Rattle.cell_machine.specs.Spe.{Moves};
ghost use Rattle.mfc_lists.specs.Elements.{ElementFits};
ghost use Rattle.cell_machine.specs.Moves.{is_moved, is_complete, read_of, whole, present, is_stalled, stall_of_tag, stalls_of_tag};
ghost use Rattle.cell_machine.specs.Channels.{with_issued, with_resumed};
ghost use Rattle.cell_machine.specs.Transfers.{begins, has_part, has_element, is_left, with_done, with_read, with_retired};
ghost use Rattle.cell_machine.specs.MovesShown.{parts_now, reading};
ghost use Rattle.cell_machine.specs.Kept.{IsKept};
ghost use Rattle.cell_machine.specs.Shown.{parts_left, shown};

use crate::outstanding::Outstanding;
use crate::progress::{Progress, has_next};
use mfc_command::{Command, Kind, parts};
use mfc_lists::{Element, ListState};
use mfc_queue::{Queue, Waiting};

/// The queue, and how far each command in it has come.
#[derive(Drop)]
pub(crate) struct Commands {
    pub(crate) queue: Queue,
    /// By the place of the command in the queue; what stands at another place means nothing.
    pub(crate) progress: [Progress; 16],
    ghost places: { length progress ≡ 16 },
}

/// Whether a command of this kind is a list.
fn is_list(kind: Kind) -> bool
    ensures { result ≡ is_list kind }
{
    match kind {
        Kind::Put => false,
        Kind::Get => false,
        Kind::PutList => true,
        Kind::GetList => true,
        Kind::Barrier => false,
        Kind::PutQueued => false,
        Kind::Signal => false,
    }
}

/// Whether a command is moved, element by element, and not retired.
pub(crate) fn is_moved(command: &Command) -> bool
    ensures { result ≡ is_moved command.now }
{
    match command.kind {
        Kind::Put => command.size != 0,
        Kind::Get => command.size != 0,
        Kind::PutList => command.size != 0,
        Kind::GetList => command.size != 0,
        Kind::Barrier => false,
        Kind::PutQueued => command.size != 0,
        Kind::Signal => command.size != 0,
    }
}

/// A command that is moved and isn't a list, as its one element.
fn whole(command: &Command) -> Element
    ensures { result ≡ whole command.now }
{
    Element {
        number: 0,
        ls: command.ls,
        ea: command.ea,
        size: command.size,
        flagged: false,
    }
}

/// How many parts a command has when it is issued; those of a list come with its elements.
#[tactic(auto, unfolding(crate::specs::Moves::present, crate::specs::Moves::read_of))]
fn parts_begun(command: &Command) -> u32
    requires few { command.now.size ≤ 16384 }
    requires fits { command.now.ea + command.now.size < 4294967296 }
    ensures count { result ≡ parts_now [] 0 command.now }
    ensures few { result ≤ 129 }
{
    if is_list(command.kind) {
        return 0;
    }
    if is_moved(command) {
        parts(command.ea, command.size)
    } else {
        0
    }
}

/// Whether a list is complete once its element in progress has ended.
fn ends(list: ListState) -> bool
    requires { IsSome (current_of list) }
    ensures { (r : Reading) (x : Element) → StandsForReading list r → current r ≡ Some x → result ≡ is_complete_reading (finished r x) }
{
    let mut ended = list;
    ended.finish();
    ended.complete()
}

impl Commands {
    ghost use Rattle.cell_machine.specs.Opening.{no_moves};
    ghost use Rattle.cell_machine.specs.MovesShown.{ShowsProgress, ShowsOtherProgress, ShowsQueueBut, IsProgressOf, IsListOf, other_steps};
    ghost use Rattle.cell_machine.specs.Shows.{ShowsCommands, CanIssue, CanMark, HasRead};

    /// No commands.
    pub(crate) fn new() -> Commands
        ensures { ShowsCommands result no_moves }
    {
        Commands {
            queue: Queue::new(),
            progress: [Progress::new(None, true); 16],
        }
    }

    /// The same commands once more.
    pub(crate) fn copy(&self) -> Commands
        ensures { result ≡ self.now }
    {
        Commands {
            queue: self.queue.copy(),
            progress: self.progress,
        }
    }

    /// Issues a command, where the queue has a free place.
    pub(crate) fn issue(&mut self, lines: u32, command: Command)
        requires number { CanIssue self.old }
        requires lines { lines ≤ 524288 }
        requires fits { OrderFits lines (Queued command) }
        requires free { (calls : List Call) → StandsFor self.old.queue calls → length (outstanding calls) < 16 }
        ensures { (m : Moves) → ShowsCommands self.old m → ShowsCommands self.new (with_issued m command) }
    {
        let parts = parts_begun(&command);
        match self.queue.issue(command) {
            Ok(cmd) => {
                self.queue.set_parts(cmd, parts);
                let moves = is_moved(&command);
                if is_list(command.kind) {
                    let list = ListState::new(command);
                    self.set_progress(cmd, Progress::new(Some(list), moves));
                } else {
                    self.set_progress(cmd, Progress::new(None, moves));
                }
            }
            Err(_) => unreachable!(),
        }
    }

    // ---- what may be done

    /// How far an outstanding command has come, if it is a list.
    fn list(&self, cmd: u32, w: Waiting) -> Option<ListState>
        requires { IsSeen self.now.queue cmd w }
        ensures { (m : Moves) (d : Command) → ShowsCommands self.now m → slice_get m.issued cmd ≡ Some d → IsListOf result m cmd d }
    {
        self.progress[w.place as usize].list
    }

    /// The same by its number.
    fn list_of(&self, cmd: u32) -> Option<ListState>
        requires { IsOneOf self.now.queue cmd }
        ensures { (m : Moves) (d : Command) → ShowsCommands self.now m → slice_get m.issued cmd ≡ Some d → IsListOf result m cmd d }
    {
        match self.queue.look(cmd) {
            Some(w) => self.list(cmd, w),
            None => unreachable!(),
        }
    }

    /// The element of an outstanding command that has parts left, if there is one.
    pub(crate) fn element(&self, cmd: u32, w: Waiting) -> Option<Element>
        requires { IsSeen self.now.queue cmd w }
        ensures some { IfSome result (λ x. (m : Moves) (d : Command) → ShowsCommands self.now m → slice_get m.issued cmd ≡ Some d → present m.read cmd d ≡ Some x) }
        ensures none { IfNone result ((m : Moves) (d : Command) (e k : ℕ) → ShowsCommands self.now m → slice_get m.issued cmd ≡ Some d → has_part m cmd e k d ≡ false) }
    {
        match self.list(cmd, w) {
            Some(list) => list.current(),
            None => Some(whole(&w.command)),
        }
    }

    /// Whether an outstanding command is a list whose next element may be read once the command may start.
    pub(crate) fn has_element(&self, cmd: u32, w: Waiting) -> bool
        requires { IsSeen self.now.queue cmd w }
        ensures { (m : Moves) (d : Command) → ShowsCommands self.now m → slice_get m.issued cmd ≡ Some d → result ≡ has_element m cmd d }
    {
        has_next(self.list(cmd, w))
    }

    /// How many steps beside pieces an outstanding command can make once it may start.
    pub(crate) fn others(&self, cmd: u32, w: Waiting) -> u8
        requires { IsSeen self.now.queue cmd w }
        ensures { (m : Moves) (d : Command) → ShowsCommands self.now m → slice_get m.issued cmd ≡ Some d → result ≡ other_steps m cmd d }
    {
        self.progress[w.place as usize].others
    }

    /// The element that part `k` of element `elem` of a command is of, where that part may be copied.
    pub(crate) fn part_left(&self, cmd: u32, elem: u16, k: u32) -> Option<Element>
        requires { IsKept self.now.queue }
        ensures may { (m : Moves) → ShowsCommands self.now m → is_some result ≡ begins m cmd (has_part m cmd elem k) }
        ensures some { IfSome result (λ x. (m : Moves) (d : Command) → ShowsCommands self.now m → slice_get m.issued cmd ≡ Some d → present m.read cmd d ≡ Some x) }
        ensures there { IfSome result (λ x. IsOneOf self.now.queue cmd) }
    {
        let Some((w, is_left)) = self.queue.look_part(cmd, k) else {
            return None;
        };
        let x = self.element(cmd, w)?;
        if x.number != elem {
            return None;
        }
        if !is_left {
            return None;
        }
        if !w.may_start {
            return None;
        }
        Some(x)
    }

    /// How far a list has come whose next element may be read.
    pub(crate) fn next_list(&self, cmd: u32) -> Option<ListState>
        requires { IsKept self.now.queue }
        ensures may { (m : Moves) → ShowsCommands self.now m → is_some result ≡ begins m cmd (has_element m cmd) }
        ensures some { IfSome result (λ s. (m : Moves) (d : Command) → ShowsCommands self.now m → slice_get m.issued cmd ≡ Some d → StandsForReading s (reading m cmd d)) }
        ensures next { IfSome result (λ s. has_next s ≡ true) }
        ensures there { IfSome result (λ s. IsOneOf self.now.queue cmd) }
    {
        let Some(w) = self.queue.look(cmd) else {
            return None;
        };
        let Some(list) = self.list(cmd, w) else {
            return None;
        };
        if list.next_at().is_none() {
            return None;
        }
        if !w.may_start {
            return None;
        }
        Some(list)
    }

    /// Whether a command may be retired.
    pub(crate) fn may_retire(&self, cmd: u32) -> bool
        requires { IsKept self.now.queue }
        ensures may { (m : Moves) → ShowsCommands self.now m → result ≡ begins m cmd (is_left m cmd) }
        ensures there { OnTrue result (IsOneOf self.now.queue cmd) }
    {
        let Some(w) = self.queue.look(cmd) else {
            return false;
        };
        if is_moved(&w.command) {
            return false;
        }
        w.may_start
    }

    // ---- what is shown

    /// How many parts of an outstanding command aren't done.
    fn parts_left(&self, cmd: u32) -> u32
        requires { IsOneOf self.now.queue cmd }
        ensures { (m : Moves) (d : Command) → ShowsCommands self.now m → slice_get m.issued cmd ≡ Some d → result ≡ length (parts_left m cmd d) }
    {
        let parts = self.queue.parts(cmd);
        // No part stands at the place behind all, so what is left of that place says how many there are.
        match self.queue.left_at(cmd, u64::from(parts)) {
            Ok(_) => unreachable!(),
            Err(behind) => parts.saturating_sub(behind as u32),
        }
    }

    /// An outstanding command, and how far it has come.
    pub(crate) fn shown(&self, cmd: u32) -> Outstanding
        requires { IsOneOf self.now.queue cmd }
        ensures { (m : Moves) (d : Command) → ShowsCommands self.now m → slice_get m.issued cmd ≡ Some d → result ≡ shown m cmd d }
    {
        let number = cmd;
        let command = self.queue.command(cmd);
        let parts = self.queue.parts(cmd);
        let left = self.parts_left(cmd);
        match self.list_of(cmd) {
            Some(list) => Outstanding {
                number,
                command,
                read: list.read(),
                element: list.current(),
                parts,
                left,
                stalled: list.stalled(),
            },
            None => Outstanding {
                number,
                command,
                read: 0,
                element: None,
                parts,
                left,
                stalled: false,
            },
        }
    }

    // ---- what would be done

    /// Whether a command is complete once part `k` of it is done.
    pub(crate) fn ends_by_part(&self, cmd: u32, k: u32) -> bool
        requires { CanMark self.now cmd k }
        ensures { (m : Moves) (d : Command) (e : ℕ) → ShowsCommands self.now m → slice_get m.issued cmd ≡ Some d → has_part m cmd e k d ≡ true → result ≡ is_complete (with_done m cmd e k) cmd }
    {
        if !self.queue.completes(cmd, k) {
            return false;
        }
        match self.list_of(cmd) {
            Some(list) => ends(list),
            None => true,
        }
    }

    /// Whether a command is complete once an element was read into this state of its list.
    pub(crate) fn ends_by_element(&self, lines: u32, cmd: u32, list: ListState, x: Element) -> bool
        requires read { HasRead self.now cmd list x }
        requires fits { ElementFits lines x }
        requires lines { lines ≤ 524288 }
        ensures { (m : Moves) (d : Command) → ShowsCommands self.now m → slice_get m.issued cmd ≡ Some d → has_element m cmd d ≡ true → x.number ≡ length (read_of m.read cmd) → StandsForReading list (with_element (reading m cmd d) x) → result ≡ is_complete (with_read m cmd x) cmd }
    {
        if parts(x.ea, x.size) != 0 {
            return false;
        }
        ends(list)
    }

    /// The tag groups that are busy once an outstanding command ends, or goes on.
    pub(crate) fn busy_if(&self, cmd: u32, ends: bool) -> u32
        ensures { (calls : List Call) → StandsFor self.now.queue calls → result ≡ (if ends then busy (calls ++ Retire cmd ∷ []) else busy calls) }
    {
        if ends {
            self.queue.busy_without(cmd)
        } else {
            self.queue.busy()
        }
    }

    // ---- what is done

    /// Keeps how far a command has come.
    fn set_progress(&mut self, cmd: u32, progress: Progress)
        requires { IsOneOf self.old.queue cmd }
        ensures queue { self.new.queue ≡ self.old.queue }
        ensures progress { (m : Moves) (d : Command) → ShowsOtherProgress self.old.queue self.old.progress m cmd → slice_get m.issued cmd ≡ Some d → IsProgressOf progress m cmd d → ShowsProgress self.old.queue self.new.progress m }
    {
        match self.queue.look(cmd) {
            Some(w) => self.progress[w.place as usize] = progress,
            None => unreachable!(),
        }
    }

    /// Keeps how far a list has come, and ends its command where it is complete.
    fn keep(&mut self, cmd: u32, list: ListState)
        requires { IsOneOf self.old.queue cmd }
        ensures { (m : Moves) (d : Command) → ShowsQueueBut self.old.queue self.old.progress m cmd → slice_get m.issued cmd ≡ Some d → is_list d.kind ≡ true → d.size ≢ 0 → StandsForReading list (reading m cmd d) → ShowsCommands self.new m }
    {
        self.set_progress(cmd, Progress::new(Some(list), true));
        if list.complete() {
            self.queue.retire(cmd);
        }
    }

    /// Ends the element in progress of a list, and says whether the list stalls then.
    fn finish(&mut self, cmd: u32, list: ListState) -> bool
        requires one { IsOneOf self.old.queue cmd }
        requires progress { IsSome (current_of list) }
        ensures { (m : Moves) (d : Command) (r : Reading) (x : Element) → ShowsQueueBut self.old.queue self.old.progress m cmd → slice_get m.issued cmd ≡ Some d → is_list d.kind ≡ true → d.size ≢ 0 → StandsForReading list r → current r ≡ Some x → reading m cmd d ≡ finished r x → ShowsCommands self.new m × (result ≡ is_stalled m cmd d) }
    {
        let mut ended = list;
        let stalls = ended.finish();
        self.keep(cmd, ended);
        stalls
    }

    /// Marks a part as copied, with the last one ends its element, and with the last one of these the command.
    /// Says whether the command stalls then.
    pub(crate) fn mark(&mut self, cmd: u32, k: u32) -> bool
        requires { CanMark self.old cmd k }
        ensures { (m : Moves) (d : Command) (e : ℕ) → ShowsCommands self.old m → slice_get m.issued cmd ≡ Some d → has_part m cmd e k d ≡ true → ShowsCommands self.new (with_done m cmd e k) × (result ≡ is_stalled (with_done m cmd e k) cmd d) }
    {
        let list = self.list_of(cmd);
        if !self.queue.mark(cmd, k) {
            return false;
        }
        match list {
            Some(list) => self.finish(cmd, list),
            None => {
                self.queue.retire(cmd);
                false
            }
        }
    }

    /// Takes an element that was read as the one in progress, and ends it where it has no parts.
    /// Says whether the command stalls then.
    pub(crate) fn begin(&mut self, lines: u32, cmd: u32, list: ListState, x: Element) -> bool
        requires read { HasRead self.old cmd list x }
        requires fits { ElementFits lines x }
        requires lines { lines ≤ 524288 }
        ensures { (m : Moves) (d : Command) → ShowsCommands self.old m → slice_get m.issued cmd ≡ Some d → has_element m cmd d ≡ true → x.number ≡ length (read_of m.read cmd) → StandsForReading list (with_element (reading m cmd d) x) → ShowsCommands self.new (with_read m cmd x) × (result ≡ is_stalled (with_read m cmd x) cmd d) }
    {
        let parts = parts(x.ea, x.size);
        self.queue.set_parts(cmd, parts);
        if parts == 0 {
            return self.finish(cmd, list);
        }
        self.keep(cmd, list);
        false
    }

    /// Retires a command that isn't moved.
    pub(crate) fn retire(&mut self, cmd: u32)
        requires { IsOneOf self.old.queue cmd }
        ensures { (m : Moves) (d : Command) → ShowsCommands self.old m → slice_get m.issued cmd ≡ Some d → is_moved d ≡ false → ShowsCommands self.new (with_retired m cmd) }
    {
        self.queue.retire(cmd);
    }

    /// Lets an outstanding command go on, if it has the tag and stalls.
    fn resume(&mut self, cmd: u32, tag: u32)
        requires { IsOneOf self.old.queue cmd }
        ensures { (m : Moves) → ShowsCommands self.old m → ShowsCommands self.new (with_resumed m (filter_map (stall_of_tag m tag) (cmd ∷ []))) }
    {
        if u32::from(self.queue.command(cmd).tag) != tag {
            return;
        }
        let Some(list) = self.list_of(cmd) else {
            return;
        };
        if !list.stalled() {
            return;
        }
        let mut resumed = list;
        resumed.resume();
        self.keep(cmd, resumed);
    }

    /// Lets all commands of a tag that stall go on.
    pub(crate) fn acknowledge(&mut self, tag: u32)
        requires { CanIssue self.old }
        ensures { (m : Moves) → ShowsCommands self.old m → ShowsCommands self.new (with_resumed m (stalls_of_tag m tag)) }
    {
        let mut next = 0;
        while let Some(cmd) = self.queue.outstanding_from(next) {
            self.resume(cmd, tag);
            next = cmd + 1;
        }
    }
}
