//! The run of a program.
ghost use Rattle.std.specs.Option.{ForSome};
ghost use Rattle.zone_run.specs.{Ends.{EndsWith}, Tasks.{task_of}};
ghost use Rattle.zone_source.specs.Runs.{seen};

use crate::program::ZoneProgram;
use crate::task::read_task;
use std::alloc::Global;
use zone_line::LineParser;
use zone_source::{Shelf, Sink, Status, run_task};

/// Writes what the program has to say of the named zone of the named source, or the line of the first cause.
///
/// It works in this order: the words; the shelf's text to its end; the source, the zone and the program's answer; the
/// writing. What each status says is told field by field by `EndsWith`.
pub fn run_program<P: ZoneProgram, H: Shelf, O: Sink>(
    alloc: Global,
    parser: &LineParser,
    words: &[String],
    shelf: &mut H,
    output: &mut O,
) -> Status
    requires { ForSome (task_of P.form words.now) (λ task. H.open_to shelf.old task.file) }
    ensures { EndsWith P.Zone.read P.label (task_of P.form words.now)
        (seen H.Source O.Sink shelf.old output.old) (seen H.Source O.Sink shelf.new output.new) result }
{
    run_task(alloc, parser, read_task::<P>(words), shelf, output)
}
