//! What the steps of a run touched.

ghost use Rattle.std.specs.Prelude.{◌≡◌, ◌++◌, ◌∷◌, [], fold, length, option_to_list, List, OnOk};
ghost use Rattle.cell_hunt.specs.declared.touches.Touch.{Touch as ATouch};
ghost use Rattle.cell_hunt.specs.Executed.{executed_by};
ghost use Rattle.cell_hunt.specs.Kinds.{digest, touchable, touched, touches};
ghost use Rattle.cell_hunt.specs.Mixing.{with_number};
ghost use Rattle.cell_hunt.specs.Touched.{AreDigests, touched_from};

use crate::error::HuntError;
use crate::executed::Executed;
use crate::mixing::with_number;
use crate::touches::{BEFORE_LINES, Touch, actor_number, line_touch, program_touch, value_touch};
use cell_base::Step;
use cell_machine::Effect;
use digest_pages::DigestPages;
use std::alloc::Global;

/// The digest of a list with what was touched, if it was: its number, and the digest of who touched it.
fn with_touched(digest: u64, what: u64, who: u64) -> u64
    ensures { result ≡ fold with_number digest (touched what who) }
{
    if who == 0 {
        return digest;
    }
    with_number(with_number(digest, what), who)
}

/// Of each that can be touched the digest of who touched it so far, and the instructions that were executed, in their order.
#[derive(Drop)]
pub struct Touched {
    pub digests: DigestPages,
    pub executed: Vec<Executed>,
}

impl Touched {
    /// Before the first step, in a machine of so many lines.
    pub fn new(alloc: Global, lines: u32) -> Touched
        ensures long { length result.digests ≡ touchable lines }
        ensures none { AreDigests [] result.digests }
        ensures executed { result.executed.items ≡ [] }
    {
        Touched {
            digests: DigestPages::new(alloc, BEFORE_LINES as usize + lines as usize),
            executed: Vec::new(alloc),
        }
    }

    /// Takes in a touch.
    #[inline(never)]
    fn touch(&mut self, touch: Touch) -> Result<(), HuntError>
        ensures long { OnOk result (length self.new.digests ≡ length self.old.digests) }
        ensures more { OnOk result ((all : List ATouch) → AreDigests all self.old.digests → AreDigests (all ++ touch ∷ []) self.new.digests) }
        ensures executed { self.new.executed ≡ self.old.executed }
    {
        let what = touch.what as usize;
        if what < self.digests.len() {
            let digest = with_number(self.digests.get(what), u64::from(touch.who));
            self.digests.put(what, digest)?;
        }
        Ok(())
    }

    /// Takes in a touch, if there is one.
    #[inline(always)]
    fn touch_some(&mut self, touch: Option<Touch>) -> Result<(), HuntError>
        ensures long { OnOk result (length self.new.digests ≡ length self.old.digests) }
        ensures more { OnOk result ((all : List ATouch) → AreDigests all self.old.digests → AreDigests (all ++ option_to_list touch) self.new.digests) }
        ensures executed { self.new.executed ≡ self.old.executed }
    {
        if let Some(touch) = touch {
            self.touch(touch)?;
        }
        Ok(())
    }

    /// Takes in the instruction that a step with this effect executes, if it executes one.
    #[inline(always)]
    fn execute(&mut self, step: Step, effect: &Effect) -> Result<(), HuntError>
        ensures digests { self.new.digests ≡ self.old.digests }
        ensures executed { OnOk result (self.new.executed.items ≡ self.old.executed.items ++ executed_by step effect.now) }
    {
        if let Step::Exec { spe } = step {
            self.executed.push(Executed {
                spe,
                at: effect.fetch.at,
            })?;
        }
        Ok(())
    }

    /// Takes in what a step with this effect touches, and the instruction that it executes.
    pub fn add(&mut self, step: Step, effect: &Effect) -> Result<(), HuntError>
        ensures long { OnOk result (length self.new.digests ≡ length self.old.digests) }
        ensures more { OnOk result ((all : List ATouch) → AreDigests all self.old.digests → AreDigests (all ++ touches step effect.now) self.new.digests) }
        ensures executed { OnOk result (self.new.executed.items ≡ self.old.executed.items ++ executed_by step effect.now) }
    {
        self.execute(step, effect)?;
        let who = actor_number(step);
        self.touch_some(program_touch(step, effect))?;
        self.touch_some(line_touch(who, effect.reads))?;
        self.touch_some(line_touch(who, effect.writes))?;
        self.touch_some(value_touch(who, effect.note))?;
        Ok(())
    }

    /// The instructions that were executed.
    pub fn into_executed(self) -> Vec<Executed>
        ensures { result ≡ self.executed }
    {
        self.executed
    }

    /// The digest of all that was touched. It costs by what was touched: a number that nobody touched adds nothing.
    pub fn kind(&self) -> u64
        ensures { result ≡ digest (touched_from 0 self.now.digests) }
    {
        let count = self.digests.len();
        let mut digest = 0;
        let mut from = 0;
        while from < count {
            let Some(what) = self.digests.next_written(from) else {
                break;
            };
            digest = with_touched(digest, what as u64, self.digests.get(what));
            from = what + 1;
        }
        digest
    }
}
