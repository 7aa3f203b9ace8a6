// The text words, each of which has a row in the table of instructions.
ghost use Rattle.std.specs.Prelude.{◌≡◌, ◌≤◌, ◌<◌, ◌+◌, ◌*◌, ◌==◌, ◌&&◌, ◌||◌, ℕ, Bool, false, List, length, map, nat_le, nat_lt, slice_index_or, All, IfOk, IfSome};
ghost use Rattle.std.specs.List.{cons_option};
ghost use Rattle.cell_base.specs.Bytes.{zeros};
ghost use Rattle.cell_machine.specs.Opening.{Placed, placed_in};
ghost use Rattle.cell_load.specs.Loaded.{Finds, bad_word, bad_word_from, first_without_row, in_text, is_text, placed_of, placed_part, places};
ghost use Rattle.cell_load.specs.LoadViews.{load_of, part_of, unmarked};

use crate::loading::LoadError;
use crate::loads::{Load, Part};
use local_store::{LocalStore, StoreError};
use spu_decode::decode;
use std::alloc::{AllocError, Global};

/// How many words a local store has.
const STORE_WORDS: u32 = 65_536;

/// Copies the bytes of a part in, if it is the processor's.
fn copy_load(store: &mut LocalStore, spe: u8, load: &Load)
    requires { IfSome (placed_part load.now.spe (part_of load.now.part)) (λ x. x.at + length x.bytes ≤ 262144) }
    ensures { (rest : List Placed) → placed_in store.new spe rest ≡ placed_in store.old spe (cons_option (placed_part load.now.spe (part_of load.now.part)) rest) }
{
    if load.spe != spe {
        return;
    }
    match load.part {
        Part::Text { at, bytes } => store.copy_in(at, bytes),
        Part::Data { at, bytes } => store.copy_in(at, bytes),
        _ => {}
    }
}

/// The store of a processor with everything placed.
fn store_of(alloc: Global, loads: &[Load], spe: u8) -> Result<LocalStore, StoreError>
    requires { All (λ x. x.at + length x.bytes ≤ 262144) (placed_of (map load_of loads.now)) }
    ensures { IfOk result (λ s. s ≡ placed_in (zeros 262144) spe (placed_of (map load_of loads.now))) }
{
    let mut store = LocalStore::new(alloc)?;
    for load in loads {
        copy_load(&mut store, spe, load);
    }
    Ok(store)
}

/// Marks the words from a place to another.
fn mark(marks: &mut [bool], from: usize, to: usize)
    requires order { from ≤ to }
    requires within { to ≤ length marks.old }
    ensures { (k : ℕ) → k < length marks.old → slice_index_or marks.new k false ≡ (slice_index_or marks.old k false || (nat_le from k && nat_lt k to)) }
{
    for k in from..to {
        marks[k] = true;
    }
}

/// Marks the words whose addresses lie in the text of a part, if it is the processor's.
fn mark_load(marks: &mut [bool], spe: u8, load: &Load)
    requires all { length marks.old ≡ 65536 }
    requires fits { IfSome (placed_part load.now.spe (part_of load.now.part)) (λ x. x.at + length x.bytes ≤ 262144) }
    ensures { (k : ℕ) → k < 65536 → slice_index_or marks.new k false ≡ (slice_index_or marks.old k false || ((load.now.spe == spe) && in_text (4 * k) (part_of load.now.part))) }
{
    if load.spe != spe {
        return;
    }
    if let Part::Text { at, bytes } = load.part {
        let at = at as usize;
        mark(marks, (at + 3) / 4, (at + bytes.len() + 3) / 4);
    }
}

/// A mark for each word of a store, none of them set.
fn no_marks(alloc: Global) -> Result<Vec<bool>, AllocError>
    ensures { IfOk result (λ v. v.items ≡ unmarked 65536) }
{
    let marks = vec![in alloc; false; 65_536]?;
    Ok(marks)
}

/// For each word of a processor's store, whether it is text.
fn text_marks(alloc: Global, loads: &[Load], spe: u8) -> Result<Vec<bool>, AllocError>
    requires { All (λ x. x.at + length x.bytes ≤ 262144) (placed_of (map load_of loads.now)) }
    ensures all { IfOk result (λ v. length v.items ≡ 65536) }
    ensures text { IfOk result (λ v. (k : ℕ) → k < 65536 → slice_index_or v.items k false ≡ is_text (map load_of loads.now) spe (4 * k)) }
{
    let mut marks = no_marks(alloc)?;
    for load in loads {
        mark_load(&mut marks, spe, load);
    }
    Ok(marks)
}

/// Finds the first marked word that is no instruction.
fn check_words(spe: u8, store: &LocalStore, marks: &[bool]) -> Result<(), LoadError>
    requires { length marks.now ≡ 65536 }
    ensures { (t : ℕ → Bool) → ((k : ℕ) → k < 65536 → slice_index_or marks.now k false ≡ t (4 * k)) → Finds result (first_without_row t spe store.now places) }
{
    for k in 0..STORE_WORDS {
        if !marks[k as usize] {
            continue;
        }
        let address = 4 * k;
        let word = store.word(address);
        if decode(word).is_none() {
            return Err(LoadError::NotInTable { spe, address, word });
        }
    }
    Ok(())
}

/// Finds the first text word of a processor that is no instruction, once everything is placed.
fn check_processor(alloc: Global, loads: &[Load], spe: u8) -> Result<(), LoadError>
    requires { All (λ x. x.at + length x.bytes ≤ 262144) (placed_of (map load_of loads.now)) }
    ensures { Finds result (bad_word (map load_of loads.now) spe) }
{
    let store = store_of(alloc, loads, spe)?;
    let marks = text_marks(alloc, loads, spe)?;
    check_words(spe, &store, &marks)
}

/// Finds that of the first of so many processors that has one.
pub(crate) fn check_processors(alloc: Global, loads: &[Load], spes: u8) -> Result<(), LoadError>
    requires { All (λ x. x.at + length x.bytes ≤ 262144) (placed_of (map load_of loads.now)) }
    ensures { Finds result (bad_word_from (map load_of loads.now) 0 spes) }
{
    for spe in 0..spes {
        check_processor(alloc, loads, spe)?;
    }
    Ok(())
}
