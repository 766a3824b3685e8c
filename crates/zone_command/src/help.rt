//! What is told without a source.
ghost use Rattle.std.specs.Prelude.{◌≡◌, option_map};
ghost use Rattle.zone_command.specs.Bare.{bare, help_text, text_shown};
ghost use Rattle.zone_words.specs.TaskShown.{task_shown};

use zone_words::{Command, Task};

/// What `zone --version` writes.
pub const VERSION: &str = "zone 2.0.0 of Sefunjaro\n";

/// What `zone --help` writes.
pub const HELP: &str = "zone [OPTIONS] COMMAND .. answers about time zones:
  at NAME TIME..        the local time of each instant
  local NAME TEXT       every instant of a local time
  convert FROM TO TEXT  the readings in TO of a local time in FROM
  list NAME FROM TO     the changes from one instant up to another
  alarm NAME TIME ..    when an alarm rings
  names [WORD]          the names that have the word, and where links lead
  stream                an answer to each request of standard input, as it comes
  log NAME              standard input with local times in place of its times
  string NAME           the string that carries a zone on for ever
  file NAME, tree       one compiled file; all of them, as a tar archive
  plain FILE            a source in the form that other programs read
  chart NAME.. YEAR     a picture of offsets over a year
zone COMMAND --help tells more of each.
A TIME is now, @1729989000 or 2024-10-27T02:30:00+02:00, a TEXT 2024-10-27 02:30, maybe with seconds.
A NAME is one of the source, UTC, or an offset as +02:00.
Options: --source FILE, --rfc3339, --epoch, --json, --help, --version; no word behind -- is one.
The source is FILE, else what SEFUNJARO_TZDATA names, else /usr/share/zoneinfo/tzdata.zi.
";

/// What `zone at --help` writes.
pub const HELP_AT: &str = "zone at NAME TIME.. writes the local time of each instant.
A TIME is now, @1729989000 or @1729989000.25, or 2024-10-27T02:30:00+02:00.
";

/// What `zone local --help` writes.
pub const HELP_LOCAL: &str =
    "zone local NAME TEXT writes every instant of a local time, or the change that skips it,
which is a fault by --rfc3339 and --epoch.
A TEXT is 2024-10-27 02:30, maybe with seconds, with a T or a space.
";

/// What `zone convert --help` writes.
pub const HELP_CONVERT: &str =
    "zone convert FROM TO TEXT writes the readings in TO of a local time in FROM.
A TEXT is 2024-10-27 02:30, maybe with seconds, with a T or a space.
";

/// What `zone list --help` writes.
pub const HELP_LIST: &str =
    "zone list NAME FROM TO writes a line for each change from the instant FROM on and before TO:
its instant, what clocks show up to it and from it on, and the saving in seconds from it on.
FROM and TO are each now, @1729989000, or 2024-10-27T02:30:00+02:00, and TO is after FROM.
";

/// What `zone alarm --help` writes.
pub const HELP_ALARM: &str =
    "zone alarm NAME TIME --from DATE (--count N | --until DATE) writes a line for each ring.
TIME is a time of day, as 07:30. The last day counts too; a day without a ring isn't one of N.
--every DAYS  from each day to the next, 1 where it isn't there
--on mon,thu  on these weekdays alone
--gap skip|before|after  what it does where clocks skip the time; skip where it isn't there
--fold first|second|both  what it does where clocks read it twice; first where it isn't there
";

/// What `zone names --help` writes.
pub const HELP_NAMES: &str =
    "zone names [WORD] writes the names that have the word, in any case, or all names, a line each.
A link has the zone that it leads to behind ->. Of the forms it takes --json alone.
";

/// What `zone stream --help` writes.
pub const HELP_STREAM: &str =
    "zone stream answers each line of standard input as soon as it is whole. Requests are
at NAME TIME, local NAME TEXT and convert FROM TO TEXT, without now.
Several readings stand on one line, with | between them. A request that can't be answered
has an answer that begins with ?, and the status is then 2 at the end.
--plain  requests and answers are those of zone_answers: at NAME N, in nanoseconds, and
local NAME YYYY-MM-DD hh:mm:ss.fffffffff; from the year 2100 on by the rules
";

/// What `zone log --help` writes.
pub const HELP_LOG: &str =
    "zone log NAME [--field K] writes standard input with the local time in place of the time
at each line's beginning, or in field K, which counts from 1. Other lines stay as they are.
It takes --rfc3339 and --epoch.
A time is 2024-10-27T02:30:00+02:00, @1729989000, or a number of 9 to 11 digits of seconds,
12 to 14 of milliseconds, 15 to 17 of microseconds, or 18 to 20 of nanoseconds, in the years
1990 to 2059.
";

/// What `zone tree --help` writes.
pub const HELP_TREE: &str =
    "zone tree [--to-2099] writes a tar archive of all compiled files and links, right in any year.
--to-2099  each file has the changes of the years to 2099, and a string that carries on from there
";

/// What `zone file --help` writes.
pub const HELP_FILE: &str = "zone file NAME writes a compiled file (TZif), right in any year.
";

/// What `zone string --help` writes.
pub const HELP_STRING: &str =
    "zone string NAME writes the POSIX TZ string that carries the zone on for ever.
";

/// What `zone chart --help` writes.
pub const HELP_CHART: &str =
    "zone chart NAME.. YEAR writes a picture of the offsets of one to eight zones over a year, as SVG.
";

/// What `zone plain --help` writes.
pub const HELP_PLAIN: &str =
    "zone plain FILE writes the source in FILE, in any form that zic reads, in plain form: words in
full, one space between fields, rules first, then zones, then links. It takes no --source.
";

/// The help of a command, or of all.
fn help_text(command: Option<Command>) -> &'static str
    ensures { result.now ≡ help_text command }
{
    match command {
        Some(Command::At) => HELP_AT,
        Some(Command::Local) => HELP_LOCAL,
        Some(Command::Convert) => HELP_CONVERT,
        Some(Command::List) => HELP_LIST,
        Some(Command::Alarm) => HELP_ALARM,
        Some(Command::Names) => HELP_NAMES,
        Some(Command::Stream) => HELP_STREAM,
        Some(Command::Log) => HELP_LOG,
        Some(Command::Tree) => HELP_TREE,
        Some(Command::File) => HELP_FILE,
        Some(Command::String) => HELP_STRING,
        Some(Command::Chart) => HELP_CHART,
        Some(Command::Plain) => HELP_PLAIN,
        None => HELP,
    }
}

/// What a task asks for without a source.
pub(crate) fn bare(task: &Task<'_>) -> Option<&'static str>
    ensures { option_map text_shown result ≡ bare (task_shown task.now) }
{
    match task {
        Task::Help(command) => Some(help_text(*command)),
        Task::Version => Some(VERSION),
        _ => None,
    }
}
