//! The program: its words, its answer, its run.
ghost use Rattle.std.specs.{Prelude.{◌<◌, codes}, Option.{ForSome}};
ghost use Rattle.zone_run.specs.{Ends.{Ends}, Tasks.{task_of}};
ghost use Rattle.zone_source.specs.Runs.{seen};
ghost use Rattle.zone_tail.specs.{Asks.{asks, form}, Starts.{StartsTail}};

use crate::call::tail;
use crate::laws::one_tail;
use crate::line::line_of;
use crate::outcome::TailFault;
use std::alloc::Global;
use tz_lookup::FixedTimespanSet;
use zone_line::LineParser;
use zone_run::{Refusal, Shelf, Sink, Started, Status, ZoneProgram, run_program, start_program};

/// The string that carries a zone on. There is nothing more to ask.
#[derive(Clone, Copy, Debug, PartialEq, Eq)]
struct Carried;

impl ZoneProgram for Carried {
    type Zone = FixedTimespanSet;

    ghost label = { codes "tail" };

    ghost form = { form };

    ghost asked = { λ _. asks };

    fn label() -> &'static str {
        "tail"
    }

    fn read(words: &[String]) -> Option<Carried> {
        match words {
            [] => Some(Carried),
            _ => None,
        }
    }

    fn answer(&self, alloc: Global, set: &FixedTimespanSet) -> Result<Vec<u8>, Refusal> {
        one_tail();
        match tail(alloc, set) {
            Ok(tail) => Ok(line_of(alloc, &tail)?),
            Err(TailFault::Shape) => Err(Refusal::Cause("shape")),
            Err(TailFault::OffsetRange) => Err(Refusal::Cause("range")),
            Err(TailFault::Name) => Err(Refusal::Cause("name")),
            Err(TailFault::NoMemory) => Err(Refusal::NoMemory),
        }
    }
}

/// Writes the POSIX TZ string that carries a zone on, after the second from which on it agrees, or `all`; or the line of the first
/// cause. The words are FILE and NAME. What each status says is told field by field by `Ends`.
pub fn run_tail<H: Shelf, O: Sink>(
    alloc: Global,
    parser: &LineParser,
    words: &[String],
    shelf: &mut H,
    output: &mut O,
) -> Status
    requires { ForSome (task_of form words.now) (λ task. H.open_to shelf.old task.file) }
    ensures { Ends (codes "tail") (task_of form words.now)
        (seen H.Source O.Sink shelf.old output.old) (seen H.Source O.Sink shelf.new output.new) result }
{
    run_program::<Carried, H, O>(alloc, parser, words, shelf, output)
}

/// The whole program `zone_tail`: `run_tail` over its words, the files and standard output. The exit status is that of the run;
/// before it come 7, where the words can't be taken, and 8, where the parser can't be built.
pub fn start_tail(rt: HostRuntime) -> Started
    ensures { StartsTail result }
{
    start_program::<Carried>(rt)
}
