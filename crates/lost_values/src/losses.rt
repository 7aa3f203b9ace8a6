//! The losses of a run as it is made.

ghost use Rattle.std.specs.Prelude.{◌≡◌, [], ◌++◌, length, Some, IfOk, OnOk};
ghost use Rattle.std.specs.Option.{option_to_list};
ghost use Rattle.cell_machine.specs.Effects.{effect_in};
ghost use Rattle.cell_machine.specs.Run.{Ran};
ghost use Rattle.lost_values.specs.Losses.{AreAllLosses, with_step};

use crate::loss::Loss;
use crate::touches::{leaves_all, signal_touch, store_touch, tag_touch};
use crate::unread::{Unread, add_endings, touch};
use cell_base::Step;
use cell_machine::{Effect, Machine};
use std::alloc::{AllocError, Global};

/// The losses of a run so far, and its unread values. `add` is called for each step of the run, and `finish` returns the losses.
#[derive(Drop)]
pub struct Losses {
    signals: Vec<Unread>,
    stores: Vec<Unread>,
    tags: Vec<Unread>,
    lost: Vec<Loss>,
}

impl Losses {
    ghost use Rattle.lost_values.specs.Keeping.{Knows};

    /// The losses of a run with no step. It takes no memory.
    pub fn new(alloc: Global) -> Losses
        ensures { (m : Ran) → m.steps ≡ [] → Knows m result }
    {
        Losses {
            signals: Vec::new(alloc),
            stores: Vec::new(alloc),
            tags: Vec::new(alloc),
            lost: Vec::new(alloc),
        }
    }

    /// Adds a loss, if there is one.
    fn keep(&mut self, loss: Option<Loss>) -> Result<(), AllocError>
        ensures lost { OnOk result (self.new.lost.items ≡ self.old.lost.items ++ option_to_list loss) }
        ensures rest { OnOk result (self.new ≡ record self.old { lost = self.new.lost }) }
    {
        if let Some(loss) = loss {
            self.lost.push(loss)?;
        }
        Ok(())
    }

    /// Adds the machine's next step, as `add` does.
    #[inline(never)]
    fn add_touches(
        &mut self,
        machine: &Machine,
        step: Step,
        effect: &Effect,
        place: u32,
    ) -> Result<(), AllocError>
        requires effect { effect_in machine.now step ≡ Some effect.now }
        requires knows { Knows machine.now self.old }
        requires place { length machine.now.steps ≡ place }
        ensures { OnOk result (Knows (with_step machine.now step) self.new) }
    {
        let setup = machine.setup();
        let signal = touch(&mut self.signals, signal_touch(setup, step, effect), place)?;
        self.keep(signal)?;
        let store = touch(&mut self.stores, store_touch(setup, step, effect), place)?;
        self.keep(store)?;
        let status = touch(&mut self.tags, tag_touch(setup, step, effect), place)?;
        self.keep(status)?;
        Ok(())
    }

    /// Adds the machine's next step, which comes at this place of the run and has this effect. Running out of memory is the only error;
    /// after it nothing is known of the losses.
    #[inline]
    pub fn add(
        &mut self,
        machine: &Machine,
        step: Step,
        effect: &Effect,
        place: u32,
    ) -> Result<(), AllocError>
        requires effect { effect_in machine.now step ≡ Some effect.now }
        requires knows { Knows machine.now self.old }
        requires place { length machine.now.steps ≡ place }
        ensures { OnOk result (Knows (with_step machine.now step) self.new) }
    {
        if leaves_all(step, effect) {
            return Ok(());
        }
        self.add_touches(machine, step, effect, place)
    }

    /// All losses of the run: first the replaced values, in the order of the steps that replace them, and then the failed stores whose
    /// status is unread at the end. Running out of memory is the only error.
    pub fn finish(self) -> Result<Vec<Loss>, AllocError>
        ensures { IfOk result (λ losses. (m : Ran) → Knows m self → AreAllLosses m losses.items) }
    {
        let mut losses = self.lost;
        add_endings(self.stores.as_slice(), &mut losses)?;
        Ok(losses)
    }
}
