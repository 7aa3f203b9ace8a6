//! How many values went into and out of each mailbox.

ghost use Rattle.std.specs.Prelude.{◌≡◌, ℕ, ◌+◌, ◌*◌, ◌<◌, ◌%◌, ◌^◌, IfOk, length, slice_index, slice_set};
ghost use Rattle.race_order.specs.Trace.{mailbox_size};
ghost use Rattle.race_order.specs.Counted.{Fits, counts_after_put, counts_after_take};

use crate::error::OrderError;
use cell_machine::Note;
use std::alloc::Global;

/// Of mailbox m of processor p the count stands at 3 p + m.
#[derive(Drop)]
pub(crate) struct Boxes {
    pub(crate) puts: Vec<u32>,
    pub(crate) takes: Vec<u32>,
}

fn size_of(mailbox: u8) -> u32
    ensures { result ≡ mailbox_size mailbox }
{
    if mailbox == 0 { 4 } else { 1 }
}

fn at(counts: &[u32], spe: u8, mailbox: u8) -> u32
    requires { 3 * spe + mailbox < length counts.now }
    ensures { result ≡ slice_index counts.now (3 * spe + mailbox) }
{
    counts[3 * usize::from(spe) + usize::from(mailbox)]
}

/// The place of the mailbox that its next value takes, or stands at.
pub(crate) fn place(counts: &[u32], spe: u8, mailbox: u8) -> u32
    requires { 3 * spe + mailbox < length counts.now }
    ensures { result ≡ slice_index counts.now (3 * spe + mailbox) % mailbox_size mailbox }
{
    at(counts, spe, mailbox) % size_of(mailbox)
}

fn raise(counts: &mut [u32], spe: u8, mailbox: u8)
    requires inside { 3 * spe + mailbox < length counts.old }
    requires room { slice_index counts.old (3 * spe + mailbox) + 1 < 2 ^ 32 }
    ensures { counts.new ≡ slice_set counts.old (3 * spe + mailbox) (slice_index counts.old (3 * spe + mailbox) + 1) }
{
    let count = at(counts, spe, mailbox);
    counts[3 * usize::from(spe) + usize::from(mailbox)] = count + 1;
}

impl Boxes {
    pub(crate) fn new(alloc: Global, spes: u8) -> Result<Boxes, OrderError>
        ensures puts { IfOk result (λ boxes. length boxes.puts.items ≡ 3 * spes) }
        ensures takes { IfOk result (λ boxes. length boxes.takes.items ≡ 3 * spes) }
        ensures no_put { IfOk result (λ boxes. (k : ℕ) → slice_index boxes.puts.items k ≡ 0) }
        ensures no_take { IfOk result (λ boxes. (k : ℕ) → slice_index boxes.takes.items k ≡ 0) }
    {
        let puts = vec![in alloc; 0u32; 3 * usize::from(spes)]?;
        let takes = vec![in alloc; 0u32; 3 * usize::from(spes)]?;
        Ok(Boxes { puts, takes })
    }

    /// Counts what the note says.
    pub(crate) fn note(&mut self, note: Note)
        requires { Fits self.old note }
        ensures puts { self.new.puts.items ≡ counts_after_put self.old.puts.items note }
        ensures takes { self.new.takes.items ≡ counts_after_take self.old.takes.items note }
    {
        match note {
            Note::Put { spe, mailbox } => raise(self.puts.as_mut_slice(), spe, mailbox),
            Note::Take { spe, mailbox } => raise(self.takes.as_mut_slice(), spe, mailbox),
            _ => {}
        }
    }
}
