//! Which processors are known to be blocked.

ghost use Rattle.std.specs.Prelude.{◌≡◌, ℕ, ◌<◌, ◌≤◌, List, Some, true, false, slice_get};
ghost use Rattle.cell_base.specs.Bits.{has_bit};
ghost use Rattle.cell_machine.specs.declared.processor.Processor.{Processor as AProcessor};

/// The processors of which it is known that their next instruction isn't allowed, as bits: processor p is the bit of value 2^p.
/// They needn't be tried again before something changes at them.
#[derive(Clone, Copy)]
pub(crate) struct Blocked {
    bits: u16,
}

impl Blocked {
    ghost use Rattle.cell_machine.specs.Blocked.{AreBlocked, AreBut, IsBlocked};

    /// Nothing is known.
    pub(crate) fn new() -> Blocked
        ensures { (processors : List AProcessor) → AreBlocked result processors }
    {
        Blocked { bits: 0 }
    }

    /// Whether this processor is known to be blocked.
    pub(crate) fn has(&self, spe: u8) -> bool
        requires { spe < 16 }
        ensures { result ≡ has_bit self.now.bits spe }
    {
        (self.bits >> spe) & 1 == 1
    }

    /// The first processor from this one on that isn't known to be blocked, be it there or not.
    pub(crate) fn first_other(&self, from: u8) -> u8
        requires { from ≤ 16 }
        ensures from { from ≤ result }
        ensures before { (p : ℕ) → from ≤ p → p < result → has_bit self.now.bits p ≡ true }
        ensures other { has_bit self.now.bits result ≡ false }
    {
        from + (u32::from(self.bits) >> from).trailing_ones() as u8
    }

    /// Takes in whether this processor, which alone may have changed, is blocked.
    pub(crate) fn tell(&mut self, spe: u8, is_blocked: bool)
        requires { spe < 16 }
        ensures { (before processors : List AProcessor) → AreBlocked self.old before → AreBut spe before processors → ((c : AProcessor) → is_blocked ≡ true → slice_get processors spe ≡ Some c → IsBlocked c) → AreBlocked self.new processors }
    {
        if is_blocked {
            self.bits |= 1 << spe;
        } else {
            self.bits &= !(1 << spe);
        }
    }

    /// Takes in that any processor may have changed.
    pub(crate) fn forget(&mut self)
        ensures { (processors : List AProcessor) → AreBlocked self.new processors }
    {
        self.bits = 0;
    }

    /// Takes in that this processor has changed, alone or with others.
    pub(crate) fn wake(&mut self, spe: u8, alone: bool)
        requires { spe < 16 }
        ensures { (before processors : List AProcessor) → AreBlocked self.old before → (alone ≡ true → AreBut spe before processors) → AreBlocked self.new processors }
    {
        if alone {
            self.tell(spe, false);
        } else {
            self.forget();
        }
    }
}
