//! The program: its words, its answer, its run.
ghost use Rattle.std.specs.{Prelude.{◌<◌, codes}, Option.{ForSome}};
ghost use Rattle.zone_run.specs.{Ends.{Ends}, Tasks.{task_of}};
ghost use Rattle.zone_source.specs.Runs.{seen};
ghost use Rattle.zone_tzif.specs.{Asks.{asks, form}, Starts.{StartsTzif}};

use crate::file::{FileFault, tzif_of};
use std::alloc::Global;
use tz_lookup::FixedTimespanSet;
use zone_line::LineParser;
use zone_run::{Refusal, Shelf, Sink, Started, Status, ZoneProgram, run_program, start_program};

/// The file of a zone. There is nothing more to ask.
#[derive(Clone, Copy, Debug, PartialEq, Eq)]
struct Compiled;

impl ZoneProgram for Compiled {
    type Zone = FixedTimespanSet;

    ghost label = { codes "tzif" };

    ghost form = { form };

    ghost asked = { λ _. asks };

    fn label() -> &'static str {
        "tzif"
    }

    fn read(words: &[String]) -> Option<Compiled> {
        match words {
            [] => Some(Compiled),
            _ => None,
        }
    }

    fn answer(&self, alloc: Global, set: &FixedTimespanSet) -> Result<Vec<u8>, Refusal> {
        match tzif_of(alloc, set) {
            Ok(file) => Ok(file),
            Err(FileFault::Times) => Err(Refusal::Cause("times")),
            Err(FileFault::Types) => Err(Refusal::Cause("types")),
            Err(FileFault::Names) => Err(Refusal::Cause("names")),
            Err(FileFault::NoMemory) => Err(Refusal::NoMemory),
        }
    }
}

/// Writes the TZif file of a zone, with nothing before or after it; or the line of the first cause. The words are FILE and NAME.
/// What each status says is told field by field by `Ends`.
pub fn run_tzif<H: Shelf, O: Sink>(
    alloc: Global,
    parser: &LineParser,
    words: &[String],
    shelf: &mut H,
    output: &mut O,
) -> Status
    requires { ForSome (task_of form words.now) (λ task. H.open_to shelf.old task.file) }
    ensures { Ends (codes "tzif") (task_of form words.now)
        (seen H.Source O.Sink shelf.old output.old) (seen H.Source O.Sink shelf.new output.new) result }
{
    run_program::<Compiled, H, O>(alloc, parser, words, shelf, output)
}

/// The whole program `zone_tzif`: `run_tzif` over its words, the files and standard output. The exit status is that of the run;
/// before it come 7, where the words can't be taken, and 8, where the parser can't be built.
pub fn start_tzif(rt: HostRuntime) -> Started
    ensures { StartsTzif result }
{
    start_program::<Compiled>(rt)
}
