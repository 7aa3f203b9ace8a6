//! A machine, and the order of the steps that it made.

ghost use Rattle.std.specs.Prelude.{◌≡◌, ◌+◌, ◌-◌, ◌<◌, ◌↔◌, [], ◌∷◌, ◌++◌, length, IfOk, OnErr, IsTrue, Some};
ghost use Rattle.cell_machine.specs.Effects.{effect_in};
ghost use Rattle.cell_machine.specs.Run.{Ran};
ghost use Rattle.run_walk.specs.Ordered.{IsOrdered};
ghost use Rattle.run_walk.specs.Walks.{Stands, walked};

use cell_base::Step;
use cell_machine::{Effect, Machine, Setup};
use race_order::Orderer;
use std::alloc::{AllocError, Global};

/// A run as it is made. Its order stands for it until a step finds no memory: from then on only the machine is of use.
#[derive(Drop)]
pub struct Walk {
    machine: Machine,
    orderer: Orderer,
}

impl Walk {
    /// The run of no step, from a setup that has a processor. Want of memory is the only refusal.
    pub fn new(alloc: Global, setup: &Setup) -> Result<Walk, AllocError>
        requires { 0 < length setup.now.entries }
        ensures run { IfOk result (λ walk. walked walk ≡ record { setup = setup.now; steps = [] }) }
        ensures stands { IfOk result Stands }
    {
        let Ok(orderer) = Orderer::new(alloc, setup) else {
            return Err(AllocError);
        };
        let Ok(copy) = setup.copy(alloc) else {
            return Err(AllocError);
        };
        let Ok(machine) = Machine::new(alloc, copy) else {
            return Err(AllocError);
        };
        Ok(Walk { machine, orderer })
    }

    /// The machine, which has made the steps so far.
    pub fn machine(&self) -> &Machine
        ensures { result.now ≡ walked self.now }
    {
        &self.machine
    }

    /// Makes the next step, of which the machine tells this effect. Want of memory is the only refusal: then the run is as it was.
    pub fn advance(&mut self, step: Step, effect: &Effect) -> Result<(), AllocError>
        ghost m: { Ran }
        requires same { m ≡ walked self.old }
        requires stands { Stands self.old }
        requires effect { effect_in m step ≡ Some effect.now }
        ensures run { IfOk result (λ _. walked self.new ≡ record m { steps = m.steps ++ step ∷ [] }) }
        ensures stands { IfOk result (λ _. Stands self.new) }
        ensures failed { OnErr result (walked self.new ≡ m) }
    {
        let Ok(_) = self.orderer.advance(step, *effect) else {
            return Err(AllocError);
        };
        let Ok(_) = self.machine.step(step) else {
            unreachable!()
        };
        Ok(())
    }

    /// Whether step `i`, counted from 0, is ordered before the last one.
    pub fn before(&self, i: u32) -> bool
        ghost m: { Ran }
        requires same { m ≡ walked self.now }
        requires stands { Stands self.now }
        requires below { i + 1 < length m.steps }
        ensures { IsTrue result ↔ IsOrdered m i (length m.steps - 1) }
    {
        self.orderer.before(i)
    }

    /// The machine alone.
    pub fn into_machine(self) -> Machine
        ensures { result ≡ walked self }
    {
        self.machine
    }
}
