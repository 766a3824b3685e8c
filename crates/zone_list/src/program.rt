//! The program: its words, its answer, its run.
ghost use Rattle.std.specs.{Prelude.{◌<◌, codes}, Option.{ForSome}};
ghost use Rattle.zone_list.specs.{Asks.{asks, form}, Starts.{StartsList}};
ghost use Rattle.zone_run.specs.{Ends.{Ends}, Tasks.{task_of}};
ghost use Rattle.zone_source.specs.Runs.{seen};

use crate::listing::{ListFault, lines_of};
use crate::window::Window;
use std::alloc::Global;
use tz_lookup::{FixedTimespanSet, SpanTable};
use zone_line::LineParser;
use zone_run::{
    Refusal, Shelf, Sink, Started, Status, ZoneProgram, number_in, run_program, start_program,
};

/// The greatest size of FROM and TO, in seconds.
const MOST_SECONDS: u64 = 9_999_999_999_999;

impl ZoneProgram for Window {
    type Zone = FixedTimespanSet;

    ghost label = { codes "list" };

    ghost form = { form };

    ghost asked = { λ window. asks window.from window.to };

    fn label() -> &'static str {
        "list"
    }

    fn read(words: &[String]) -> Option<Window> {
        Window::of_words(words)
    }

    fn answer(&self, alloc: Global, set: &FixedTimespanSet) -> Result<Vec<u8>, Refusal> {
        self.rows_of(alloc, set)
    }
}

impl Window {
    ghost use Rattle.std.specs.Prelude.{◌≡◌, map, option_map, string_bytes};
    ghost use Rattle.tz_lookup.specs.Sets.{IsAccepted, schedule_of};
    ghost use Rattle.zone_list.specs.Asks.{asks, window_in};
    ghost use Rattle.zone_run.specs.Asked.{Answers};

    /// The window of the words FROM and TO, whole numbers of seconds from 1970-01-01 00:00:00 UTC, of at most 13 digits; else none.
    pub fn of_words(words: &[String]) -> Option<Window>
        ensures { option_map (λ window. (window.from, window.to)) result ≡ window_in (map string_bytes words.now) }
    {
        let [from, to] = words else {
            return None;
        };
        let Some(from) = number_in(from.as_str(), MOST_SECONDS) else {
            return None;
        };
        let Some(to) = number_in(to.as_str(), MOST_SECONDS) else {
            return None;
        };
        Some(Window { from, to })
    }

    /// The rows of the window of a set that can be looked up, each with its LF, as the program writes them.
    ///
    /// # Errors
    ///
    /// `range`, as of [`list_lines`](crate::list_lines); want of memory.
    pub fn rows_of<S: SpanTable>(&self, alloc: Global, table: &S) -> Result<Vec<u8>, Refusal>
        requires { IsAccepted (schedule_of (S.seen table.now)) }
        ensures { Answers (asks self.now.from self.now.to) (S.seen table.now) result }
    {
        match lines_of(alloc, table, self.from, self.to) {
            Ok(listing) => Ok(listing.into_bytes()),
            Err(ListFault::Range) => Err(Refusal::Cause("range")),
            Err(ListFault::NoMemory) => Err(Refusal::NoMemory),
        }
    }
}

/// Writes the rows of a window of a zone, or the line of the first cause. The words are FILE, NAME, FROM and TO, the last
/// two whole numbers of at most 13 digits, in seconds from 1970-01-01 00:00:00 UTC. What each status says is told field by
/// field by `Ends`.
pub fn run_list<H: Shelf, O: Sink>(
    alloc: Global,
    parser: &LineParser,
    words: &[String],
    shelf: &mut H,
    output: &mut O,
) -> Status
    requires { ForSome (task_of form words.now) (λ task. H.open_to shelf.old task.file) }
    ensures { Ends (codes "list") (task_of form words.now)
        (seen H.Source O.Sink shelf.old output.old) (seen H.Source O.Sink shelf.new output.new) result }
{
    run_program::<Window, H, O>(alloc, parser, words, shelf, output)
}

/// The whole program `zone_list`: `run_list` over its words, the files and standard output. The exit status is that of the run;
/// before it come 7, where the words can't be taken, and 8, where the parser can't be built.
pub fn start_list(rt: HostRuntime) -> Started
    ensures { StartsList result }
{
    start_program::<Window>(rt)
}
