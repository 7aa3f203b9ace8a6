//! The allowed steps of a flow controller: that of its atomic command, then those of its queued ones in the order of their numbers and parts.

ghost use Rattle.std.specs.Prelude.{◌≡◌, ℕ, true, false, ◌%◌, ◌<◌, ◌≤◌, [], ◌∷◌, Some, length, filter, flat_map, slice_get, if◌then◌else◌};
ghost use Rattle.std.specs.Option.{option_map_or};
ghost use Rattle.mfc_queue.specs.At.{IsAt};
ghost use Rattle.mfc_queue.specs.Stands.{IsSeen};
ghost use Rattle.mfc_command.specs.declared.command.Command.{Command};
ghost use Rattle.cell_machine.specs.Spe.{Spe, is_faulted};
ghost use Rattle.cell_machine.specs.Moves.{present, outstanding, may_begin};
ghost use Rattle.cell_machine.specs.Run.{pieces_of, steps_of_number};
ghost use Rattle.cell_machine.specs.Kept.{IsKept};
ghost use Rattle.cell_machine.specs.Choices.{may, allowed_of_number, allowed_of_mfc, allowed_at};

use crate::commands::is_moved;
use crate::processor::Processor;
use cell_base::Step;
use mfc_queue::Waiting;

/// A step that is allowed or not at place `n`, or how far `n` is behind it.
fn alone(step: Step, allowed: bool, n: u64) -> Result<Step, u64>
    ensures { IsAt result n (if allowed then step ∷ [] else []) }
{
    if !allowed {
        return Err(n);
    }
    if n > 0 {
        return Err(n - 1);
    }
    Ok(step)
}

impl Processor {
    ghost use Rattle.cell_machine.specs.Shows.{ShowsSpe};

    /// How many allowed steps an outstanding command has, where the controller isn't at fault.
    fn count_of_command(&self, cmd: u32, w: Waiting) -> u64
        requires { IsSeen self.now.commands.queue cmd w }
        ensures count { (spe : ℕ) (P : Spe) → ShowsSpe self.now P → is_faulted P.status ≡ false → result ≡ length (allowed_of_number spe P cmd) }
        ensures few { result < 8589934592 }
    {
        if !w.may_start {
            return 0;
        }
        u64::from(self.commands.others(cmd, w)) + u64::from(w.left)
    }

    /// The allowed piece of a command that may start, at place `n`, or how far `n` is behind the last one.
    fn piece_at(&self, spe: u8, cmd: u32, w: Waiting, n: u64) -> Result<Step, u64>
        requires kept { IsKept self.now.commands.queue }
        requires seen { IsSeen self.now.commands.queue cmd w }
        ensures { (P : Spe) (d : Command) → ShowsSpe self.now P → is_faulted P.status ≡ false → may_begin P.moves cmd ≡ true → slice_get P.moves.issued cmd ≡ Some d → IsAt result n (filter (may P) (option_map_or (pieces_of spe cmd) (present P.moves.read cmd d) [])) }
    {
        let Some(x) = self.commands.element(cmd, w) else {
            return Err(n);
        };
        let part = self.commands.queue.left_at(cmd, n)?;
        Ok(Step::Piece {
            spe,
            cmd,
            elem: x.number,
            part: part as u16,
        })
    }

    /// The allowed step of a command at place `n`, or how far `n` is behind the last one, where the controller isn't at fault.
    fn step_of_command(&self, spe: u8, cmd: u32, w: Waiting, n: u64) -> Result<Step, u64>
        requires kept { IsKept self.now.commands.queue }
        requires seen { IsSeen self.now.commands.queue cmd w }
        ensures { (P : Spe) → ShowsSpe self.now P → is_faulted P.status ≡ false → IsAt result n (allowed_of_number spe P cmd) }
    {
        if !w.may_start {
            return Err(n);
        }
        let behind = match alone(
            Step::Elem { spe, cmd },
            self.commands.has_element(cmd, w),
            n,
        ) {
            Ok(step) => return Ok(step),
            Err(behind) => behind,
        };
        match alone(Step::Retire { spe, cmd }, !is_moved(&w.command), behind) {
            Ok(step) => Ok(step),
            Err(behind) => self.piece_at(spe, cmd, w, behind),
        }
    }

    /// The allowed step of a queued command at place `n`, or how far `n` is behind the last one.
    ///
    /// The commands before that one are only counted.
    fn step_of_queue(&self, spe: u8, n: u64) -> Result<Step, u64>
        requires { IsKept self.now.commands.queue }
        ensures { (P : Spe) → ShowsSpe self.now P → IsAt result n (filter (may P) (flat_map (steps_of_number spe P) (outstanding P))) }
    {
        if self.is_faulted() {
            return Err(n);
        }
        let mut i = 0;
        let mut rest = n;
        while let Some((cmd, w)) = self.commands.queue.outstanding_at(i) {
            let count = self.count_of_command(cmd, w);
            if rest < count {
                return self.step_of_command(spe, cmd, w, rest);
            }
            rest -= count;
            i += 1;
        }
        Err(rest)
    }

    /// How many allowed steps the queued commands have.
    fn count_of_queue(&self) -> u64
        requires { IsKept self.now.commands.queue }
        ensures count { (spe : ℕ) (P : Spe) → ShowsSpe self.now P → result ≡ length (filter (may P) (flat_map (steps_of_number spe P) (outstanding P))) }
        ensures few { result ≤ 137438953472 }
    {
        if self.is_faulted() {
            return 0;
        }
        let mut count = 0;
        let mut i = 0;
        while let Some((cmd, w)) = self.commands.queue.outstanding_at(i) {
            count += self.count_of_command(cmd, w);
            i += 1;
        }
        count
    }

    /// How many allowed steps there are.
    fn count_of_mfc(&self) -> u64
        requires { IsKept self.now.commands.queue }
        ensures { (spe : ℕ) (P : Spe) → ShowsSpe self.now P → result ≡ length (allowed_of_mfc spe P) }
    {
        let count = self.count_of_queue();
        if self.may_atomic() { count + 1 } else { count }
    }

    /// The allowed step at place `n`, or how far `n` is behind the last one: that of the atomic command stands before the others.
    fn step_of_mfc(&self, spe: u8, n: u64) -> Result<Step, u64>
        requires { IsKept self.now.commands.queue }
        ensures { (P : Spe) → ShowsSpe self.now P → IsAt result n (allowed_of_mfc spe P) }
    {
        match alone(Step::Atomic { spe }, self.may_atomic(), n) {
            Ok(step) => Ok(step),
            Err(behind) => self.step_of_queue(spe, behind),
        }
    }

    /// Whether there is nothing to do. That takes one look, and most flow controllers that are asked have nothing.
    #[inline(always)]
    fn is_idle(&self) -> bool
        ensures { (spe : ℕ) (P : Spe) → ShowsSpe self.now P → result ≡ true → allowed_of_mfc spe P ≡ [] }
    {
        if self.queued() > 0 {
            return false;
        }
        !self.may_atomic()
    }

    /// The first allowed step.
    pub(crate) fn first_of_mfc(&self, spe: u8) -> Option<Step>
        requires { IsKept self.now.commands.queue }
        ensures { (P : Spe) → ShowsSpe self.now P → result ≡ slice_get (allowed_of_mfc spe P) 0 }
    {
        self.step_of_mfc(spe, 0).ok()
    }

    /// The allowed step at the place that is the choice's remainder.
    #[inline(always)]
    pub(crate) fn pick_of_mfc(&self, spe: u8, choice: u64) -> Option<Step>
        requires { IsKept self.now.commands.queue }
        ensures { (P : Spe) → ShowsSpe self.now P → result ≡ slice_get (allowed_of_mfc spe P) (choice % length (allowed_of_mfc spe P)) }
    {
        if self.is_idle() {
            return None;
        }
        let count = self.count_of_mfc();
        if count == 0 {
            return None;
        }
        self.step_of_mfc(spe, choice % count).ok()
    }

    /// Of the outstanding command at an index, the allowed step at the place that is the choice's remainder.
    pub(crate) fn pick_at(&self, spe: u8, index: usize, choice: u64) -> Option<Step>
        requires { IsKept self.now.commands.queue }
        ensures { (P : Spe) → ShowsSpe self.now P → result ≡ slice_get (allowed_at spe P index) (choice % length (allowed_at spe P index)) }
    {
        if self.is_faulted() {
            return None;
        }
        let Some((cmd, w)) = self.commands.queue.outstanding_at(index) else {
            return None;
        };
        let count = self.count_of_command(cmd, w);
        if count == 0 {
            return None;
        }
        self.step_of_command(spe, cmd, w, choice % count).ok()
    }
}
