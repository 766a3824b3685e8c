//! The whole of a program.
ghost use Rattle.std.specs.Prelude.{ℕ, List};
ghost use Rattle.zone_run.specs.Starts.{StartsWith};

use crate::program::ZoneProgram;
use crate::running::run_program;
use std::alloc::Global;
use std::marker::PhantomData;
use zone_line::LineParser;
use zone_source::{FilesProgram, Shelf, Sink, Started, Status, start_files_run};

/// A program over a file and a zone, as one that reads files.
struct OverZone<P> {
    program: PhantomData<P>,
}

impl<P: ZoneProgram> FilesProgram for OverZone<P> {
    ghost use Rattle.zone_run.specs.{Ends.{EndsWith}, Tasks.{task_of}};

    ghost ends = { λ words. EndsWith P.Zone.read P.label (task_of P.form words) };

    fn run<H: Shelf, O: Sink>(
        alloc: Global,
        parser: &LineParser,
        words: &[String],
        shelf: &mut H,
        output: &mut O,
    ) -> Status {
        run_program::<P, H, O>(alloc, parser, words, shelf, output)
    }
}

/// The whole of a program over a file and a zone: `run_program` over its words, the files and standard output. The exit
/// status is that of the run; before it come 7, where the words can't be taken, and 8, where the parser can't be built.
pub fn start_program<P: ZoneProgram>(rt: HostRuntime) -> Started
    ensures { StartsWith P.Zone.read P.label P.form result }
{
    start_files_run::<OverZone<P>>(rt)
}
