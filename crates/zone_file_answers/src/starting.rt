//! The whole program.
ghost use Rattle.std.specs.Prelude.{ℕ, List};
ghost use Rattle.zone_file_answers.specs.Starts.{StartsAnswers};

use crate::running::run;
use std::alloc::Global;
use zone_source::{BareProgram, Shelf, Sink, Source, Started, Status, start_run};

/// The program, as one without a parser.
struct FileAnswersProgram;

impl BareProgram for FileAnswersProgram {
    ghost use Rattle.zone_file_answers.specs.Starts.{answers_run};

    ghost ends = { answers_run };

    fn run<H: Shelf, I: Source, O: Sink>(
        alloc: Global,
        words: &[String],
        shelf: &mut H,
        input: &mut I,
        output: &mut O,
    ) -> Status {
        run(alloc, words, shelf, input, output)
    }
}

/// The whole program `zone_file_answers`: `run` over its words, the files, standard input and standard output. The exit status is that
/// of the run; before it comes 7, where the words can't be taken.
pub fn start(rt: HostRuntime) -> Started
    ensures { StartsAnswers result }
{
    start_run::<FileAnswersProgram>(rt)
}
