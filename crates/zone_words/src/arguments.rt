//! The words behind a command.
ghost use Rattle.std.specs.Prelude.{◌≡◌, [], map, option_map};
ghost use Rattle.zone_words.specs.{Arguments.{alone, at_in, changes_in, chart_in, convert_in, list_in, local_in, maybe_in, one_in, task_in, two_in, zone_alarm_in, zone_log_in}, Shown.{given_shown, word_shown}, TaskShown.{task_shown}, Told.{Reads}};

use crate::alarm::alarm_in;
use crate::given::{Given, has};
use crate::task::Task;
use crate::values::{instant_in, instants_in, number_told, text_in, year_in};
use crate::{Command, Reading, WordCause, WordFault};
use std::alloc::Global;

/// What is asked where no word stands behind the command.
fn alone<'w>(words: &[&'w str], task: Task<'w>) -> Reading<'w, Task<'w>>
    ensures { Reads task_shown result (alone (map word_shown words.now) (task_shown task.entry)) }
{
    match words {
        [] => Ok(task),
        [more, ..] => Err(WordFault::of(*more, WordCause::TooMany)),
    }
}

/// A word, or none.
fn maybe_in<'w>(words: &[&'w str]) -> Reading<'w, Option<&'w str>>
    ensures { Reads (λ word. option_map word_shown word) result (maybe_in (map word_shown words.now)) }
{
    match words {
        [] => Ok(None),
        [word] => Ok(Some(*word)),
        [_, more, ..] => Err(WordFault::of(*more, WordCause::TooMany)),
    }
}

/// One word.
fn one_in<'w>(command: &'w str, words: &[&'w str]) -> Reading<'w, &'w str>
    ensures { Reads word_shown result (one_in command.now (map word_shown words.now)) }
{
    match words {
        [] => Err(WordFault::of(command, WordCause::TooFew)),
        [word] => Ok(*word),
        [_, more, ..] => Err(WordFault::of(*more, WordCause::TooMany)),
    }
}

/// Two words.
fn two_in<'w>(command: &'w str, words: &[&'w str]) -> Reading<'w, (&'w str, &'w str)>
    ensures { Reads (λ both. (both.0.now, both.1.now)) result (two_in command.now (map word_shown words.now)) }
{
    match words {
        [] => Err(WordFault::of(command, WordCause::TooFew)),
        [_] => Err(WordFault::of(command, WordCause::TooFew)),
        [first, second] => Ok((*first, *second)),
        [_, _, more, ..] => Err(WordFault::of(*more, WordCause::TooMany)),
    }
}

/// A zone and instants, of which there is one at least.
fn at_in<'w>(alloc: Global, command: &'w str, words: &[&'w str]) -> Reading<'w, Task<'w>>
    ensures { Reads task_shown result (at_in command.now (map word_shown words.now)) }
{
    match words {
        [] => Err(WordFault::of(command, WordCause::TooFew)),
        [_] => Err(WordFault::of(command, WordCause::TooFew)),
        [zone, ..] => Ok(Task::At(*zone, instants_in(alloc, &words[1..])?)),
    }
}

/// A zone and a local time.
fn local_in<'w>(alloc: Global, command: &'w str, words: &[&'w str]) -> Reading<'w, Task<'w>>
    ensures { Reads task_shown result (local_in command.now (map word_shown words.now)) }
{
    match words {
        [] => Err(WordFault::of(command, WordCause::TooFew)),
        [zone, text @ ..] => Ok(Task::Local(*zone, text_in(alloc, command, text)?)),
    }
}

/// Two zones and a local time.
fn convert_in<'w>(alloc: Global, command: &'w str, words: &[&'w str]) -> Reading<'w, Task<'w>>
    ensures { Reads task_shown result (convert_in command.now (map word_shown words.now)) }
{
    match words {
        [] => Err(WordFault::of(command, WordCause::TooFew)),
        [_] => Err(WordFault::of(command, WordCause::TooFew)),
        [from, to, text @ ..] => Ok(Task::Convert(*from, *to, text_in(alloc, command, text)?)),
    }
}

/// The changes of a zone between two instants.
fn changes_in<'w>(command: &'w str, zone: &'w str, window: &[&'w str]) -> Reading<'w, Task<'w>>
    ensures { Reads task_shown result (changes_in command.now zone.now (map word_shown window.now)) }
{
    let (from, last) = two_in(command, window)?;
    let from = instant_in(from)?;
    let to = instant_in(last)?;
    Ok(Task::List(zone, from, to, last))
}

/// A zone and two instants.
fn list_in<'w>(command: &'w str, words: &[&'w str]) -> Reading<'w, Task<'w>>
    ensures { Reads task_shown result (list_in command.now (map word_shown words.now)) }
{
    match words {
        [] => Err(WordFault::of(command, WordCause::TooFew)),
        [zone, window @ ..] => changes_in(command, *zone, window),
    }
}

/// A zone and a time of day, with options.
fn zone_alarm_in<'w>(
    alloc: Global,
    command: &'w str,
    words: &[&'w str],
    given: &[Given<'w>],
) -> Reading<'w, Task<'w>>
    ensures { Reads task_shown result (zone_alarm_in command.now (map word_shown words.now) (map given_shown given.now)) }
{
    let (zone, time) = two_in(command, words)?;
    Ok(Task::Alarm(zone, alarm_in(alloc, command, time, given)?))
}

/// A zone, with the option of a field.
fn zone_log_in<'w>(
    command: &'w str,
    words: &[&'w str],
    given: &[Given<'w>],
) -> Reading<'w, Task<'w>>
    ensures { Reads task_shown result (zone_log_in command.now (map word_shown words.now) (map given_shown given.now)) }
{
    let zone = one_in(command, words)?;
    Ok(Task::Log(zone, number_told(given, "--field")?))
}

/// One to eight zones, and a year.
fn chart_in<'w>(alloc: Global, command: &'w str, words: &[&'w str]) -> Reading<'w, Task<'w>>
    ensures { Reads task_shown result (chart_in command.now (map word_shown words.now)) }
{
    if words.len() < 2 {
        return Err(WordFault::of(command, WordCause::TooFew));
    }
    if words.len() > 9 {
        return Err(WordFault::of(words[9], WordCause::TooMany));
    }
    let last = words.len() - 1;
    let year = year_in(words[last])?;
    let zones = Vec::from_slice(alloc, &words[..last])?;
    Ok(Task::Chart(zones, year))
}

/// What the words behind a command ask, with its options.
#[tactic(auto, unfolding(crate::specs::Arguments::task_in))]
pub(crate) fn task_in<'w>(
    alloc: Global,
    command: Command,
    name: &'w str,
    words: &[&'w str],
    given: &[Given<'w>],
) -> Reading<'w, Task<'w>>
    ensures { Reads task_shown result (task_in command name.now (map word_shown words.now) (map given_shown given.now)) }
{
    match command {
        Command::At => at_in(alloc, name, words),
        Command::Local => local_in(alloc, name, words),
        Command::Convert => convert_in(alloc, name, words),
        Command::List => list_in(name, words),
        Command::Alarm => zone_alarm_in(alloc, name, words, given),
        Command::Names => maybe_in(words).map(Task::Names),
        Command::Stream => alone(words, Task::Stream(has(given, "--plain"))),
        Command::Log => zone_log_in(name, words, given),
        Command::Tree => alone(words, Task::Tree(has(given, "--to-2099"))),
        Command::File => one_in(name, words).map(Task::File),
        Command::String => one_in(name, words).map(Task::String),
        Command::Chart => chart_in(alloc, name, words),
        Command::Plain => one_in(name, words).map(Task::Plain),
    }
}
