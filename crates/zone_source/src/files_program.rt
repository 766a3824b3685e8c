//! Programs that read files and no input.
ghost use Rattle.std.specs.Prelude.{ℕ, List};
ghost use Rattle.zone_source.specs.{Runs.{seen}, Starts.{Run, Starts, over_file}};

use crate::running::Status;
use crate::starting::{SourceProgram, Started, start_source_run};
use std::alloc::Global;
use std::marker::PhantomData;
use zone_line::LineParser;
use zone_outside::{Shelf, Sink, Source};

/// A program that reads source text and no input: what it makes of its words, over whatever shelf and output.
pub trait FilesProgram {
    /// How its run ends, without an input.
    ghost ends: { Run };

    /// Its run with these words, which are those after the program's own name.
    fn run<H: Shelf, O: Sink>(
        alloc: Global,
        parser: &LineParser,
        words: &[String],
        shelf: &mut H,
        output: &mut O,
    ) -> Status
        requires { (name : List ℕ) → H.open_to shelf.old name }
        ensures { ends words.now
            (seen H.Source O.Sink shelf.old output.old) (seen H.Source O.Sink shelf.new output.new) result };
}

/// Such a program beside an input, which it leaves alone.
struct BesideInput<P> {
    program: PhantomData<P>,
}

impl<P: FilesProgram> SourceProgram for BesideInput<P> {
    ghost use Rattle.zone_source.specs.Starts.{over_file};

    ghost ends = { over_file P.ends };

    fn run<H: Shelf, I: Source, O: Sink>(
        alloc: Global,
        parser: &LineParser,
        words: &[String],
        shelf: &mut H,
        _input: &mut I,
        output: &mut O,
    ) -> Status {
        P::run::<H, O>(alloc, parser, words, shelf, output)
    }
}

/// The whole of a program that reads source text and no input, with the exit statuses of any over source text.
pub fn start_files_run<P: FilesProgram>(rt: HostRuntime) -> Started
    ensures { Starts (over_file P.ends) result }
{
    start_source_run::<BesideInput<P>>(rt)
}
