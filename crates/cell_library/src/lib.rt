//! What `cell`, `hunt` and run_trace say, for a page or a program in C: words and files go in, a text and a status come out. There is no file, no thread
//! and no state between two calls, so that several may be made at once.
#![tactic(auto)]

ghost use Rattle.cell_library.specs.declared.answer.Answer.{Answer as AnAnswer};
ghost use Rattle.cell_library.specs.Answers.{Given, IsAnswerTo};

mod answer;
mod asking;
mod bundle;
mod given_files;
mod text_sink;

use answer::Answer;
use asking::answer_to;
use std::alloc::Global;

/// Puts an answer's text where it fits, and answers the status: 4 where it doesn't.
fn give(answer: &Answer, out: &mut [u8], written: &mut usize) -> u32
    ensures { Given answer.now out.old out.new written.new result }
{
    let text = answer.text();
    *written = text.len();
    if text.len() > out.len() {
        return 4;
    }
    out[..text.len()].copy_from_slice(text);
    u32::from(answer.code())
}

/// Does what the words ask for with these files, puts what is printed, or why nothing was done, into `out`, tells how many bytes that has in `written`,
/// and answers the exit status. Where `out` has no room for all of it, nothing is put, and the status is 4. The words stand one on a line. Each file is its
/// name, a line feed, how many bytes it has, in decimal, a line feed, and those bytes; the next comes right behind them.
#[unsafe(no_mangle)]
pub extern "C" fn cell_answer(
    alloc: Global,
    words: &[u8],
    files: &[u8],
    out: &mut [u8],
    written: &mut usize,
) -> u32
    ensures { (answer : AnAnswer) × IsAnswerTo words.now files.now answer × Given answer out.old out.new written.new result }
{
    let answer = answer_to(alloc, words, files);
    give(&answer, out, written)
}
