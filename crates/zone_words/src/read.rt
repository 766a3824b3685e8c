//! What words ask.
ghost use Rattle.std.specs.Prelude.{◌≡◌, map, option_map, string_bytes};
ghost use Rattle.zone_words.specs.{Shown.{given_shown, word_shown}, TaskShown.{task_shown, words_shown}, Told.{Reads}, Words.{command_in, form_in, help_in, of_command, other_option, source_in, whole_task, words_in}};

use crate::answer_form::AnswerForm;
use crate::arguments::task_in;
use crate::command::{command_named, takes};
use crate::given::{Given, has, value_of};
use crate::sorted::sort_words;
use crate::{Asked, Command, Reading, Task, WordCause, WordFault};
use std::alloc::Global;

/// The form of the answers.
fn form_in(given: &[Given<'_>]) -> AnswerForm
    ensures { result ≡ form_in (map given_shown given.now) }
{
    if has(given, "--rfc3339") {
        AnswerForm::Rfc3339
    } else if has(given, "--epoch") {
        AnswerForm::Epoch
    } else if has(given, "--json") {
        AnswerForm::Json
    } else {
        AnswerForm::People
    }
}

/// The command of that name.
fn command_in(name: &str) -> Reading<'_, Command>
    ensures { Reads (λ command. command) result (command_in name.now) }
{
    match command_named(name) {
        Some(command) => Ok(command),
        None => Err(WordFault::of(name, WordCause::UnknownCommand)),
    }
}

/// The first option that the command doesn't take.
fn other_option<'w>(command: Command, given: &[Given<'w>]) -> Option<&'w str>
    ensures { option_map word_shown result ≡ other_option command (map given_shown given.now) }
{
    for option in given {
        if !takes(command, option.name) {
            return Some(option.name);
        }
    }
    None
}

/// What is asked where help is.
fn help_in<'w>(words: &[&'w str]) -> Reading<'w, Task<'w>>
    ensures { Reads task_shown result (help_in (map word_shown words.now)) }
{
    match words {
        [] => Ok(Task::Help(None)),
        [name, ..] => {
            let command = command_in(*name)?;
            Ok(Task::Help(Some(command)))
        }
    }
}

/// What a command asks.
fn of_command<'w>(alloc: Global, words: &[&'w str], given: &[Given<'w>]) -> Reading<'w, Task<'w>>
    ensures { Reads task_shown result (of_command (map word_shown words.now) (map given_shown given.now)) }
{
    match words {
        [] => Err(WordFault::of("", WordCause::CommandMissing)),
        [name, rest @ ..] => {
            let command = command_in(*name)?;
            match other_option(command, given) {
                Some(option) => Err(WordFault::of(option, WordCause::OtherOption)),
                None => task_in(alloc, command, *name, rest, given),
            }
        }
    }
}

/// What is asked of words that were sorted.
fn whole_task<'w>(alloc: Global, words: &[&'w str], given: &[Given<'w>]) -> Reading<'w, Task<'w>>
    ensures { Reads task_shown result (whole_task (map word_shown words.now) (map given_shown given.now)) }
{
    if has(given, "--help") {
        return help_in(words);
    }
    if has(given, "--version") {
        return Ok(Task::Version);
    }
    of_command(alloc, words, given)
}

/// The file of the source, where words name it.
fn source_in<'w>(task: &Task<'w>, given: &[Given<'w>]) -> Option<&'w str>
    ensures { option_map word_shown result ≡ source_in (task_shown task.now) (map given_shown given.now) }
{
    match task {
        Task::Plain(file) => Some(*file),
        _ => value_of(given, "--source"),
    }
}

/// What words ask, without the name of the program.
///
/// # Errors
///
/// The first fault, with the word at fault. From the left to the right: `UnknownOption`, `Twice`; at the end `ValueMissing`.
/// Then, unless the version is asked, `CommandMissing` (which help doesn't need) or `UnknownCommand`; then, where no help is asked,
/// `OtherOption`; then what the command's words lack, from the left to the right, and what its options do, in the order in
/// which README tells them. `NoMemory`.
#[tactic(auto, unfolding(crate::specs::Words::words_in))]
pub fn read_words<'w>(alloc: Global, words: &'w [String]) -> Result<Asked<'w>, WordFault<'w>>
    ensures { Reads words_shown result (words_in (map string_bytes words.now)) }
{
    let sorted = sort_words(alloc, words)?;
    let given = sorted.given.as_slice();
    let task = whole_task(alloc, sorted.words.as_slice(), given)?;
    Ok(Asked {
        source: source_in(&task, given),
        form: form_in(given),
        task,
    })
}
