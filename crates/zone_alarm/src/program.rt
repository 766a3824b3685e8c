//! The program: its words, its answer, its run.
ghost use Rattle.std.specs.{Prelude.{◌≡◌, ◌<◌, codes}, Option.{ForSome}};
ghost use Rattle.tz_lookup.specs.{Sets.{schedule_of, IsAccepted}, Zones.{set_of}};
ghost use Rattle.zone_alarm.specs.{Asks.{asks, form}, Starts.{StartsAlarm}};
ghost use Rattle.zone_run.specs.{Ends.{Ends}, Tasks.{task_of}};
ghost use Rattle.zone_source.specs.Runs.{seen};

use crate::daily::alarms;
use crate::line::lines_of;
use crate::ring::AlarmFault;
use crate::words::{days_in, start_in};
use civil_base::PlainDateTime;
use std::alloc::Global;
use tz_lookup::{FixedTimespanSet, TimeZone, Tz};
use zone_line::LineParser;
use zone_run::{Refusal, Shelf, Sink, Started, Status, ZoneProgram, run_program, start_program};

/// A daily alarm.
#[derive(Clone, Copy, Debug, PartialEq, Eq)]
pub struct Daily {
    /// The first day and the time of day.
    pub start: PlainDateTime,
    /// How many days.
    pub days: u32,
}

impl ZoneProgram for Daily {
    type Zone = FixedTimespanSet;

    ghost label = { codes "alarm" };

    ghost form = { form };

    ghost asked = { λ daily. asks daily.start daily.days };

    fn label() -> &'static str {
        "alarm"
    }

    fn read(words: &[String]) -> Option<Daily> {
        Daily::of_words(words)
    }

    fn answer(&self, alloc: Global, set: &FixedTimespanSet) -> Result<Vec<u8>, Refusal> {
        self.lines_in(alloc, &zone_of(set))
    }
}

impl Daily {
    ghost use Rattle.std.specs.Prelude.{◌≡◌, map, option_map, string_bytes};
    ghost use Rattle.zone_alarm.specs.Asks.{AnswersRings, daily_in};

    /// The alarm of the words START, a date `YYYY-MM-DD`, TIME, as `hh:mm:ss`, and DAYS, from 1 to 36600; none where they are in no such form.
    pub fn of_words(words: &[String]) -> Option<Daily>
        ensures { option_map (λ daily. (daily.start, daily.days)) result ≡ daily_in (map string_bytes words.now) }
    {
        let [start, time, days] = words else {
            return None;
        };
        let Some(start) = start_in(start.as_str(), time.as_str()) else {
            return None;
        };
        let Some(days) = days_in(days.as_str()) else {
            return None;
        };
        Some(Daily { start, days })
    }

    /// The lines of the days in a zone, each with its LF, as the program writes them.
    ///
    /// # Errors
    ///
    /// `range` exactly where the last day is past 9999-12-31; want of memory.
    pub fn lines_in<T: TimeZone>(&self, alloc: Global, zone: &T) -> Result<Vec<u8>, Refusal>
        ensures { AnswersRings (T.total_at zone.now) self.now.start self.now.days result }
    {
        match alarms(alloc, zone, self.start.time(), self.start.date(), self.days) {
            Ok(rings) => Ok(lines_of(alloc, &rings)?.into_bytes()),
            Err(AlarmFault::Range) => Err(Refusal::Cause("range")),
            Err(AlarmFault::NoMemory) => Err(Refusal::NoMemory),
        }
    }
}

/// The zone of a set that can be looked up.
fn zone_of(set: &FixedTimespanSet) -> Tz<'_>
    requires { IsAccepted (schedule_of set.now) }
    ensures { set_of result ≡ set.now }
{
    match Tz::new(set) {
        Ok(zone) => zone,
        Err(_) => unreachable!(),
    }
}

/// Writes when a daily alarm rings in a zone, or the line of the first cause. The words are FILE, NAME, START, TIME and
/// DAYS: the first date, the time of day in whole seconds, and a number of days from 1 to 36,600. What each status says is
/// told field by field by `Ends`.
pub fn run_alarm<H: Shelf, O: Sink>(
    alloc: Global,
    parser: &LineParser,
    words: &[String],
    shelf: &mut H,
    output: &mut O,
) -> Status
    requires { ForSome (task_of form words.now) (λ task. H.open_to shelf.old task.file) }
    ensures { Ends (codes "alarm") (task_of form words.now)
        (seen H.Source O.Sink shelf.old output.old) (seen H.Source O.Sink shelf.new output.new) result }
{
    run_program::<Daily, H, O>(alloc, parser, words, shelf, output)
}

/// The whole program `zone_alarm`: `run_alarm` over its words, the files and standard output. The exit status is that of the run;
/// before it come 7, where the words can't be taken, and 8, where the parser can't be built.
pub fn start_alarm(rt: HostRuntime) -> Started
    ensures { StartsAlarm result }
{
    start_program::<Daily>(rt)
}
