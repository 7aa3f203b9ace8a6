//! Where the steps of a run come from, told as it is made.

ghost use Rattle.std.specs.Prelude.{◌≡◌, ℕ, ◌+◌, ◌^◌, ◌<◌, if◌then◌else◌, true, IfOk, IfSome, IsSome, OnOk, Some, [], length, slice_index};
ghost use Rattle.cell_machine.specs.Effects.{effect_in};
ghost use Rattle.cell_machine.specs.Run.{next_of, spe_of};
ghost use Rattle.cell_hunt.specs.Runs.{with_step};
ghost use Rattle.cell_hunt.specs.Sites.{AreSites, IsSite, is_action, issues_for};

use crate::error::HuntError;
use crate::site::{Site, Sites};
use cell_base::Step;
use cell_machine::{Effect, Machine, Note};
use std::alloc::Global;

/// The PC of a processor, 0 where the machine has none of this number.
fn pc_of(machine: &Machine, spe: u8) -> u32
    ensures { IfSome (spe_of machine.now spe) (λ P. P.pc ≡ result) }
{
    if spe < machine.setup().spes() {
        machine.pc(spe)
    } else {
        0
    }
}

/// The number at a place, 0 behind the last one.
fn at_or_zero(numbers: &[u32], place: usize) -> u32
    ensures { result ≡ slice_index numbers.now place }
{
    if place < numbers.len() {
        numbers[place]
    } else {
        0
    }
}

/// Writes a number at a place, and zeros in front of it where the list is shorter.
fn put(numbers: &mut Vec<u32>, place: usize, number: u32) -> Result<(), HuntError>
    ensures here { OnOk result (slice_index numbers.new.items place ≡ number) }
    ensures left { OnOk result ((k : ℕ) → (k ≡ place → ⊥) → slice_index numbers.new.items k ≡ slice_index numbers.old.items k) }
{
    while numbers.len() <= place {
        numbers.push(0)?;
    }
    numbers[place] = number;
    Ok(())
}

/// Where each step of a run so far comes from: the address of its instruction, the number of its action, or of a step of a command the
/// address of the instruction that issued it.
#[derive(Drop)]
pub struct Origins {
    alloc: Global,
    steps: Vec<u32>,
    // how many actions of the host there are
    actions: u32,
    // the addresses of the instructions that issued the commands of each processor, by their numbers
    commands: Vec<Vec<u32>>,
    // that of the last atomic command of each processor
    atomics: Vec<u32>,
}

impl Origins {
    ghost use Rattle.cell_machine.specs.declared.effect.Note.{Note as ANote};
    ghost use Rattle.cell_hunt.specs.Origins.{IsIssued, IsPassed, Knows, commands_of, issued_at};

    /// Of no step.
    pub fn new(alloc: Global) -> Origins
        ensures steps { result.steps.items ≡ [] }
        ensures actions { result.actions ≡ 0 }
    {
        Origins {
            alloc,
            steps: Vec::new(alloc),
            actions: 0,
            commands: Vec::new(alloc),
            atomics: Vec::new(alloc),
        }
    }

    /// The address of the instruction that last issued a command of this number.
    fn command(&self, spe: u8, number: u32) -> u32
        ensures { result ≡ slice_index (commands_of self.now.commands.items spe) number }
    {
        if usize::from(spe) < self.commands.len() {
            at_or_zero(self.commands[usize::from(spe)].as_slice(), number as usize)
        } else {
            0
        }
    }

    /// The address of the instruction that last issued the command of a step.
    fn issued_at(&self, of: Step) -> u32
        ensures { result ≡ issued_at self.now of }
    {
        match of {
            Step::Piece { spe, cmd, .. } => self.command(spe, cmd),
            Step::Elem { spe, cmd } => self.command(spe, cmd),
            Step::Retire { spe, cmd } => self.command(spe, cmd),
            Step::Atomic { spe } => at_or_zero(self.atomics.as_slice(), usize::from(spe)),
            Step::Exec { .. } => 0,
            Step::Host => 0,
        }
    }

    /// Where the machine's next step comes from.
    fn origin(&self, machine: &Machine, step: Step) -> u32
        ensures pc { (p : ℕ) → step ≡ Step.Exec p → IfSome (spe_of machine.now p) (λ P. P.pc ≡ result) }
        ensures action { step ≡ Step.Host → result ≡ self.now.actions }
        ensures issued { (p : ℕ) (note : ANote) → issues_for step p note ≡ true → result ≡ issued_at self.now step }
    {
        match step {
            Step::Exec { spe } => pc_of(machine, spe),
            Step::Host => self.actions,
            _ => self.issued_at(step),
        }
    }

    /// A list for the commands of each processor up to this one.
    fn grow(&mut self, spe: u8) -> Result<(), HuntError>
        ensures there { OnOk result (spe < length self.new.commands.items) }
        ensures same { OnOk result ((p : ℕ) → commands_of self.new.commands.items p ≡ commands_of self.old.commands.items p) }
        ensures rest { OnOk result (self.new ≡ record self.old { commands = self.new.commands }) }
    {
        while self.commands.len() <= usize::from(spe) {
            self.commands.push(Vec::new(self.alloc))?;
        }
        Ok(())
    }

    /// Takes in that a command of this number is issued by the instruction at this address.
    fn set_command(&mut self, spe: u8, number: u32, at: u32) -> Result<(), HuntError>
        ensures here { OnOk result (slice_index (commands_of self.new.commands.items spe) number ≡ at) }
        ensures left { OnOk result ((p c : ℕ) → ((p ≡ spe) × (c ≡ number) → ⊥) → slice_index (commands_of self.new.commands.items p) c ≡ slice_index (commands_of self.old.commands.items p) c) }
        ensures rest { OnOk result (self.new ≡ record self.old { commands = self.new.commands }) }
    {
        self.grow(spe)?;
        put(&mut self.commands[usize::from(spe)], number as usize, at)?;
        Ok(())
    }

    /// Takes in what an instruction at this address issues.
    fn issue(&mut self, spe: u8, note: Note, at: u32) -> Result<(), HuntError>
        ensures issued { OnOk result (IsIssued spe note at self.old self.new) }
        ensures steps { OnOk result (self.new.steps ≡ self.old.steps) }
        ensures actions { OnOk result (self.new.actions ≡ self.old.actions) }
    {
        match note {
            Note::Issue { cmd, .. } => self.set_command(spe, cmd, at),
            Note::AtomicIssue => put(&mut self.atomics, usize::from(spe), at),
            _ => Ok(()),
        }
    }

    /// Takes in a step, which comes from here, and tells this.
    fn pass(&mut self, step: Step, note: Note, at: u32) -> Result<(), HuntError>
        requires { self.old.actions + 1 < 2 ^ 32 }
        ensures issued { OnOk result (IsPassed step note at self.old self.new) }
        ensures steps { OnOk result (self.new.steps ≡ self.old.steps) }
        ensures actions { OnOk result (self.new.actions ≡ (if is_action step then self.old.actions + 1 else self.old.actions)) }
    {
        if let Step::Exec { spe } = step {
            self.issue(spe, note, at)?;
            return Ok(());
        }
        if let Step::Host = step {
            self.actions += 1;
        }
        Ok(())
    }

    /// Takes in the machine's next step, which is the one at this place and has this effect.
    pub fn add(
        &mut self,
        machine: &Machine,
        step: Step,
        effect: &Effect,
        place: u32,
    ) -> Result<(), HuntError>
        requires effect { effect_in machine.now step ≡ Some effect.now }
        requires knows { Knows machine.now self.old }
        requires place { length machine.now.steps ≡ place }
        requires few { place + 1 < 2 ^ 32 }
        ensures { OnOk result (Knows (with_step machine.now step) self.new) }
    {
        let at = self.origin(machine, step);
        self.pass(step, effect.note, at)?;
        self.steps.push(at)?;
        Ok(())
    }

    /// The site of the step at a place.
    pub fn site(&self, machine: &Machine, place: u32) -> Site
        requires knows { Knows machine.now self.now }
        requires inside { place < length machine.now.steps }
        ensures { IsSite machine.now place result }
    {
        Site::new(machine.steps()[place as usize], self.steps[place as usize])
    }

    /// The sites of the steps at two places.
    pub fn sites(&self, machine: &Machine, first: u32, second: u32) -> Sites
        requires knows { Knows machine.now self.now }
        requires first { first < length machine.now.steps }
        requires second { second < length machine.now.steps }
        ensures { AreSites machine.now first second result }
    {
        Sites {
            first: self.site(machine, first),
            second: self.site(machine, second),
        }
    }
}
