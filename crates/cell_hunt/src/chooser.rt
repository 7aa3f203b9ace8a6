//! Which step a run makes next.

ghost use Rattle.std.specs.Prelude.{◌≡◌, ◌+◌, ◌-◌, ◌^◌, ◌<◌, nat_lt, length, IfSome, IfNone, IsSome};
ghost use Rattle.cell_machine.specs.Run.{next_of, picked_of};
ghost use Rattle.cell_hunt.specs.Choices.{IsChosen, IsDrawn, IsMade, IsWalked, after_word, lowers, opened, walked, with_word, word_of, words_of};
ghost use Rattle.cell_hunt.specs.Ends.{IsOver};
ghost use Rattle.cell_hunt.specs.Strategies.{actor_drawn, strategy_of};

use crate::keys::Keys;
use crate::locals::going_on;
use crate::mixing::with_number;
use crate::offers::best;
use crate::owners::place_of;
use crate::strategy::{Strategy, strategy_of};
use cell_base::Step;
use cell_machine::Machine;
use rand_core::utils::NextWord;
use rand_pcg::Pcg32;
use std::marker::Model;

/// How many actors a walk draws before it goes by the keys of all.
const TRIES: u32 = 8;

/// The choices of a run.
#[derive(Drop)]
pub struct Chooser {
    strategy: Strategy,
    /// If keys stay, the greatest one is lowered before a choice with a chance of 2^-rate.
    rate: u32,
    /// The random words that are still to come.
    words: Pcg32,
    keys: Keys,
}

impl Model for Chooser {
    ghost use Rattle.cell_hunt.specs.Choices.{Choices};

    ghost Value = { Choices };

    ghost view = { λ c. record { strategy = c.strategy; rate = c.rate; words = c.words; keys = c.keys } };
}

/// Whether a word lowers the greatest key, of which the chance is 2^-rate.
fn is_lowering(word: u32, rate: u32) -> bool
    ensures { result ≡ nat_lt word (2 ^ (32 - rate)) }
{
    u64::from(word) < 1u64 << 32u32.saturating_sub(rate)
}

/// The step of the actor that the next word draws, if it has one; `word` picks among its steps.
fn drawn(words: &mut Pcg32, machine: &Machine, strategy: Strategy, word: u32) -> Option<Step>
    ensures step { result ≡ picked_of machine.now (actor_drawn strategy (length machine.now.setup.entries) (word_of words.old)) word }
    ensures words { words.new ≡ after_word words.old }
    ensures allowed { IfSome result (λ s. IsSome (next_of machine.now s)) }
{
    let actor = strategy.actor(machine.setup().spes(), words.next_word());
    machine.pick(actor, u64::from(word))
}

/// The step of the first actor drawn that has one. A word draws each actor, and `word` picks among the steps of one.
fn first_drawn(words: &mut Pcg32, machine: &Machine, strategy: Strategy, word: u32) -> Option<Step>
    ensures drawn { (result ≡ (walked machine.now strategy word 8 words.old).step) × (words.new ≡ (walked machine.now strategy word 8 words.old).words) }
    ensures allowed { IfSome result (λ s. IsSome (next_of machine.now s)) }
{
    for _ in 0..TRIES {
        let step = drawn(words, machine, strategy, word);
        if step.is_some() {
            return step;
        }
    }
    None
}

impl Chooser {
    /// Before the first step of run `run` of a seed.
    pub fn new(seed: u64, run: u32) -> Chooser
        ensures { result ≡ opened (strategy_of run) (words_of seed run) }
    {
        let strategy = strategy_of(run);
        let mut words = Pcg32::new(with_number(seed, u64::from(run)), u64::from(run));
        let base = words.next_word();
        let rate = u32::from(strategy.least_rate) + words.next_word() % 8;
        Chooser {
            strategy,
            rate,
            words,
            keys: Keys::new(strategy, u64::from(base)),
        }
    }

    /// The step of a walk, in which `word` picks among the steps of an actor. None exactly if the run is over.
    fn walk(&mut self, machine: &Machine, strategy: Strategy, word: u32) -> Option<Step>
        ensures walked { IfSome result (λ s. IsWalked machine.now strategy word self.old s self.new) }
        ensures allowed { IfSome result (λ s. IsSome (next_of machine.now s)) }
        ensures none { IfNone result (IsOver machine.now) }
    {
        let step = first_drawn(&mut self.words, machine, strategy, word);
        if step.is_some() {
            return step;
        }
        let base = self.words.next_word();
        self.keys.set_base(u64::from(base));
        best(machine, strategy, &self.keys, word)
    }

    /// The step by keys that stay. None exactly if the run, which has so many steps, is over.
    fn by_keys(
        &mut self,
        machine: &Machine,
        strategy: Strategy,
        word: u32,
        steps: u32,
    ) -> Option<Step>
        requires steps { length machine.now.steps ≡ steps }
        requires few { steps + 1 < 2 ^ 32 }
        ensures made { IfSome result (λ s. IsMade (lowers self.old) machine.now strategy word (with_word self.old) s self.new) }
        ensures allowed { IfSome result (λ s. IsSome (next_of machine.now s)) }
        ensures none { IfNone result (IsOver machine.now) }
    {
        if !is_lowering(self.words.next_word(), self.rate) {
            return best(machine, strategy, &self.keys, word);
        }
        let Some(top) = best(machine, strategy, &self.keys, word) else {
            return None;
        };
        self.keys.lower(place_of(top), steps + 1);
        best(machine, strategy, &self.keys, word)
    }

    /// The step that is drawn. None exactly if the run, which has so many steps, is over.
    fn draw(&mut self, machine: &Machine, strategy: Strategy, steps: u32) -> Option<Step>
        requires steps { length machine.now.steps ≡ steps }
        requires few { steps + 1 < 2 ^ 32 }
        ensures drawn { IfSome result (λ s. IsDrawn machine.now strategy self.old s self.new) }
        ensures allowed { IfSome result (λ s. IsSome (next_of machine.now s)) }
        ensures none { IfNone result (IsOver machine.now) }
    {
        let word = self.words.next_word();
        if strategy.walks {
            self.walk(machine, strategy, word)
        } else {
            self.by_keys(machine, strategy, word, steps)
        }
    }

    /// The next step of a run that has so many. None exactly if the run is over.
    pub fn next(&mut self, machine: &Machine, steps: u32) -> Option<Step>
        requires steps { length machine.now.steps ≡ steps }
        requires few { steps + 1 < 2 ^ 32 }
        ensures chosen { IfSome result (λ s. IsChosen machine.now self.old s self.new) }
        ensures allowed { IfSome result (λ s. IsSome (next_of machine.now s)) }
        ensures none { IfNone result (IsOver machine.now) }
    {
        let strategy = self.strategy.at(steps, machine.setup().budget());
        let on = going_on(machine, strategy, steps);
        if on.is_some() {
            return on;
        }
        self.draw(machine, strategy, steps)
    }
}
