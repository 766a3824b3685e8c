//! Whether words ask for the instant at which they are read.
ghost use Rattle.std.specs.{Prelude.{◌≡◌, is_none, map}, List.{list_any}};
ghost use Rattle.zone_command.specs.Times.{asks_now};
ghost use Rattle.zone_words.specs.{TimesShown.{asked}, TaskShown.{task_shown}};

use zone_words::{AskedInstant as Instant, Task};

fn is_now(instant: &Instant) -> bool
    ensures { result ≡ is_none (asked instant.now) }
{
    matches!(instant, Instant::Now)
}

fn has_now(instants: &[Instant]) -> bool
    ensures { result ≡ list_any is_none (map asked instants.now) }
{
    for instant in instants {
        if is_now(instant) {
            return true;
        }
    }
    false
}

/// Whether the task asks for the instant at which it is read.
pub(crate) fn asks_now(task: &Task<'_>) -> bool
    ensures { result ≡ asks_now (task_shown task.now) }
{
    match task {
        Task::At(_, instants) => has_now(instants.as_slice()),
        Task::List(_, from, to, _) => is_now(from) || is_now(to),
        _ => false,
    }
}
