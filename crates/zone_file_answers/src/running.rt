//! The top call.
ghost use Rattle.std.specs.Prelude.{◌≡◌, ℕ, List, Some};
ghost use Rattle.zone_file_answers.specs.Ends.{Ends};
ghost use Rattle.zone_source.specs.{FileWords.{file_of}, Runs.{run_seen}};

use crate::respond::FileAnswers;
use std::alloc::Global;
use zone_source::{Shelf, Sink, Source, Status, run_over};

/// Answers the requests of the input over the compiled zone file of the shelf that the one word names, and writes the answers, or
/// the first fault, to the output.
///
/// It works in this order: the words; the file to its end; the input to its end; the answers; the writing. What each status says is
/// told field by field by `Ends`: 0 only where the file is a zone that can be looked up and each request is in its form, with
/// exactly one line written for each; every other status only by its stated cause.
pub fn run<H: Shelf, I: Source, O: Sink>(
    alloc: Global,
    words: &[String],
    shelf: &mut H,
    input: &mut I,
    output: &mut O,
) -> Status
    requires { (name : List ℕ) → file_of words.now ≡ Some name → H.open_to shelf.old name }
    ensures { Ends (file_of words.now)
        (run_seen H.Source I.Source O.Sink shelf.old input.old output.old)
        (run_seen H.Source I.Source O.Sink shelf.new input.new output.new) result }
{
    match words {
        [name] => run_over(alloc, &FileAnswers, name.as_str(), shelf, input, output),
        _ => Status::Words,
    }
}
