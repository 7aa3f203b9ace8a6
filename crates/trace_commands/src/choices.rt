//! Choice files: numbers between white space.

ghost use Rattle.std.specs.Prelude.{◌≡◌, ◌++◌, ◌∷◌, [], IfErr, MatchOption, OnOk};
ghost use Rattle.std.specs.Option.{ForSome};
ghost use Rattle.cell_io.specs.Store.{NoneFell};
ghost use Rattle.trace_commands.specs.Files.{ChoicesCome, ChoiceTextComes, FailsAtChoices, IsOfFiles, ReadsNumbers};
ghost use Rattle.trace_commands.specs.Numbers.{IsNumber, value_of};

use crate::fault::Fault;
use cell_commands::RECORD_LIMIT;
use cell_io::{FetchFault, Fetched, Store};
use std::alloc::{AllocError, Global};
use std::str;

/// How long a choice file may be, in bytes.
const CHOICES_LIMIT: usize = RECORD_LIMIT;

/// The number that a word is.
fn number_of(word: &str) -> Option<u64>
    ensures { MatchOption result (¬ (IsNumber word.now)) (λ n. IsNumber word.now × (n ≡ value_of word.now)) }
{
    match word.parse::<u64>() {
        Ok(number) => Some(number),
        Err(_) => None,
    }
}

/// Adds a number.
fn add_number(numbers: &mut Vec<u64>, number: u64) -> Result<(), AllocError>
    ensures { OnOk result (numbers.new.items ≡ numbers.old.items ++ number ∷ []) }
{
    numbers.push(number)?;
    Ok(())
}

/// The numbers that the words of a text are.
fn numbers_of(alloc: Global, text: &str) -> Result<Vec<u64>, Fault>
    ensures { ReadsNumbers text.now result }
{
    let mut numbers = Vec::new(alloc);
    for word in text.split_whitespace() {
        let Some(number) = number_of(word) else {
            return Err(Fault::Choices);
        };
        add_number(&mut numbers, number)?;
    }
    Ok(numbers)
}

/// The numbers of a text.
fn numbers_in(alloc: Global, text: &[u8]) -> Result<Vec<u64>, Fault>
    ensures { ReadsNumbers text.now result }
{
    match str::from_utf8(text) {
        Ok(text) => numbers_of(alloc, text),
        Err(_) => Err(Fault::Choices),
    }
}

/// The text of a choice file.
fn read_text<T: Store>(alloc: Global, files: &mut T, name: &str) -> Result<Vec<u8>, Fault>
    ensures same { T.files files.new ≡ T.files files.old }
    ensures store_count { NoneFell (T.ledger files.old) (T.ledger files.new) }
    ensures kept { OnOk result (T.ledger files.new ≡ T.ledger files.old) }
    ensures input { IfErr result IsOfFiles }
    ensures cause { IfErr result (FailsAtChoices name.now (T.ledger files.old) (T.ledger files.new)) }
    ensures comes { ForSome (T.files files.old) (λ told. ChoiceTextComes told name.now (T.ledger files.old) (T.ledger files.new) result) }
{
    let mut bytes = Vec::new(alloc);
    match files.fetch(alloc, name, CHOICES_LIMIT, &mut bytes) {
        Ok(Fetched::Whole) => Ok(bytes),
        Ok(Fetched::TooLong) => Err(Fault::TooLong),
        Err(FetchFault::Failed) => Err(Fault::ReadFault),
        Err(FetchFault::Memory) => Err(Fault::Memory),
    }
}

/// The numbers of a choice file.
pub fn read_choices<T: Store>(alloc: Global, files: &mut T, name: &str) -> Result<Vec<u64>, Fault>
    ensures same { T.files files.new ≡ T.files files.old }
    ensures store_count { NoneFell (T.ledger files.old) (T.ledger files.new) }
    ensures kept { OnOk result (T.ledger files.new ≡ T.ledger files.old) }
    ensures input { IfErr result IsOfFiles }
    ensures cause { IfErr result (FailsAtChoices name.now (T.ledger files.old) (T.ledger files.new)) }
    ensures comes { ForSome (T.files files.old) (λ told. ChoicesCome told name.now (T.ledger files.old) (T.ledger files.new) result) }
{
    let text = read_text(alloc, files, name)?;
    numbers_in(alloc, text.as_slice())
}
