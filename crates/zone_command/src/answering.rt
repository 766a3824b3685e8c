//! What answers over a source.
ghost use Rattle.std.specs.Prelude.{◌≡◌, ◌≤◌, length, [], map, option_map, Ok};
ghost use Rattle.civil_base.specs.DateTimes.{instant};
ghost use Rattle.zone_command.specs.{Answers.{OfName, lined, of_name, told, IsAnswer, IsGiven}, Replies.{at_fault, at_lines, convert_lines, instants_at, list_answer, on_zone, reply_of, IsDueOver, IsReplyTo, IsZoneOver, asks_form}, Due.{IsDue}};
ghost use Rattle.zone_words.specs.{TimesShown.{asked as asked_of}, TaskShown.{alarm_shown, task_shown, words_shown}};
ghost use Rattle.zone_texts.specs.{Texts.{names_text}, Rings.{rings_due}};

use crate::AnswerFault;
use crate::answers::{refusal_of, told, told_between};
use crate::charts::chart_reply;
use crate::line::{name_words, named_line, told_line};
use crate::named::find_named;
use crate::replies::{at_lines, convert_lines, list_lines, moment_of, ring_lines};
use crate::source::{Refusal, ZoneSource};
use civil_base::{OffsetDateTime, PlainDateTime};
use std::alloc::Global;
use zone_texts::{Style, add_names};
use zone_words::{Alarm, AnswerForm, Asked, AskedInstant as Instant, Task};

/// The answer to `at`.
fn at_reply<S: ZoneSource>(
    alloc: Global,
    source: &S,
    style: &Style<'_>,
    times: &[Instant],
    now: &OffsetDateTime,
) -> Result<Vec<u8>, Refusal>
    ensures { IsAnswer (on_zone (S.found source.now) style.now.name.now (λ view.
        told style.now.name.now (at_lines style.now.form view style.now.name.now [] (instants_at (instant now.now) (map asked_of times.now))))) result }
{
    let zone = find_named(alloc, source, style.name)?;
    let lines = at_lines(alloc, &zone, style, times, now);
    told(alloc, style.name, lines)
}

/// The answer to `local`.
fn local_reply<S: ZoneSource>(
    alloc: Global,
    source: &S,
    style: &Style<'_>,
    local: &PlainDateTime,
) -> Result<Vec<u8>, Refusal>
    ensures { IsAnswer (on_zone (S.found source.now) style.now.name.now (λ view.
        told style.now.name.now (convert_lines style.now.form view style.now.name.now view style.now.name.now local.now))) result }
{
    let zone = find_named(alloc, source, style.name)?;
    let lines = convert_lines(alloc, &zone, style.name, &zone, style, local);
    told(alloc, style.name, lines)
}

/// The answer to `convert`.
fn convert_reply<S: ZoneSource>(
    alloc: Global,
    source: &S,
    from_name: &str,
    style: &Style<'_>,
    local: &PlainDateTime,
) -> Result<Vec<u8>, Refusal>
    ensures { IsAnswer (on_zone (S.found source.now) from_name.now (λ view. on_zone (S.found source.now) style.now.name.now (λ other.
        told (at_fault view from_name.now style.now.name.now local.now) (convert_lines style.now.form view from_name.now other style.now.name.now local.now)))) result }
{
    let from = find_named(alloc, source, from_name)?;
    let to = find_named(alloc, source, style.name)?;
    let lines = convert_lines(alloc, &from, from_name, &to, style, local);
    told_between(alloc, &from, from_name, style.name, local, lines)
}

/// The answer to `list`, of which the second instant has that word.
fn list_reply<S: ZoneSource>(
    alloc: Global,
    source: &S,
    style: &Style<'_>,
    from: &OffsetDateTime,
    to: &OffsetDateTime,
    word: &str,
) -> Result<Vec<u8>, Refusal>
    ensures { IsAnswer (list_answer (S.found source.now) style.now.form style.now.name.now (instant from.now) (instant to.now) word.now) result }
{
    if *from < *to {
        let zone = find_named(alloc, source, style.name)?;
        let lines = list_lines(alloc, &zone, style, from, to);
        told(alloc, style.name, lines)
    } else {
        Err(refusal_of(alloc, word, b"this isn't after FROM"))
    }
}

/// The answer to `alarm`.
fn alarm_reply<S: ZoneSource>(
    alloc: Global,
    source: &S,
    style: &Style<'_>,
    alarm: &Alarm,
) -> Result<Vec<u8>, Refusal>
    ensures { IsAnswer (on_zone (S.found source.now) style.now.name.now (λ view.
        told style.now.name.now (rings_due style.now.form view style.now.name.now (alarm_shown alarm.now)))) result }
{
    let zone = find_named(alloc, source, style.name)?;
    let lines = ring_lines(alloc, &zone, style, alarm);
    told(alloc, style.name, lines)
}

/// The answer to `names`.
fn names_reply<S: ZoneSource>(
    alloc: Global,
    source: &S,
    form: AnswerForm,
    word: Option<&str>,
) -> Result<Vec<u8>, Refusal>
    ensures { IsAnswer (Ok (names_text form (S.entries source.now) (option_map (λ word. word.now) word.entry))) result }
{
    let entries = source.entries(alloc)?;
    let mut text = Vec::new(alloc);
    add_names(&mut text, alloc, form, &entries, word)?;
    Ok(text)
}

/// The answer to `file`.
fn file_reply<S: ZoneSource>(alloc: Global, source: &S, name: &str) -> Result<Vec<u8>, Refusal>
    ensures { IsGiven (OfName name.now (S.files source.now name.now)) result }
{
    match source.file(alloc, name) {
        Ok(file) => Ok(file),
        Err(Refusal::Why(why)) => Err(Refusal::Why(name_words(alloc, name, &why)?)),
        Err(Refusal::NoMemory) => Err(Refusal::NoMemory),
    }
}

/// The answer to `string`.
fn string_reply<S: ZoneSource>(alloc: Global, source: &S, name: &str) -> Result<Vec<u8>, Refusal>
    ensures { IsGiven (OfName name.now (S.strings source.now name.now)) result }
{
    match source.string(alloc, name) {
        Ok(line) => Ok(line),
        Err(Refusal::Why(why)) => Err(Refusal::Why(name_words(alloc, name, &why)?)),
        Err(Refusal::NoMemory) => Err(Refusal::NoMemory),
    }
}

/// The answer to a task.
fn reply<S: ZoneSource>(
    alloc: Global,
    source: &S,
    form: AnswerForm,
    now: &OffsetDateTime,
    task: &Task<'_>,
) -> Result<Vec<u8>, Refusal>
    ensures { IsGiven (IsReplyTo (S.found source.now) (S.entries source.now) (S.files source.now) (S.strings source.now) (S.trees source.now)
        form (instant now.now) (task_shown task.now)) result }
{
    match task {
        Task::At(name, times) => at_reply(
            alloc,
            source,
            &Style { name: *name, form },
            times.as_slice(),
            now,
        ),
        Task::Local(name, local) => {
            local_reply(alloc, source, &Style { name: *name, form }, local)
        }
        Task::Convert(from, to, local) => {
            convert_reply(alloc, source, *from, &Style { name: *to, form }, local)
        }
        Task::List(name, from, to, word) => list_reply(
            alloc,
            source,
            &Style { name: *name, form },
            &moment_of(from, now),
            &moment_of(to, now),
            *word,
        ),
        Task::Alarm(name, alarm) => {
            alarm_reply(alloc, source, &Style { name: *name, form }, alarm)
        }
        Task::Names(word) => names_reply(alloc, source, form, *word),
        Task::File(name) => file_reply(alloc, source, *name),
        Task::String(name) => string_reply(alloc, source, *name),
        Task::Tree(to_2099) => source.tree(alloc, *to_2099),
        Task::Chart(names, year) => chart_reply(alloc, source, names.as_slice(), *year),
        _ => Ok(Vec::new(alloc)),
    }
}

/// Whether the plain form of the text is asked for.
fn asks_form(task: &Task<'_>) -> bool
    ensures { result ≡ asks_form (task_shown task.now) }
{
    matches!(task, Task::Plain(_))
}

/// What is due for a plain form.
fn form_due<S: ZoneSource>(alloc: Global, file: &str, text: &[u8]) -> Result<Vec<u8>, AnswerFault>
    requires { length text.now ≤ 16777216 }
    ensures { IsDue (λ due. due ≡ lined (of_name file.now (S.forms text.now))) result }
{
    match S::plain_form(alloc, text) {
        Ok(form) => Ok(form),
        Err(Refusal::Why(why)) => Err(AnswerFault::Line(named_line(alloc, file, &why)?)),
        Err(Refusal::NoMemory) => Err(AnswerFault::NoMemory),
    }
}

/// What is due for any other task.
fn reply_due<S: ZoneSource>(
    alloc: Global,
    asked: &Asked<'_>,
    now: &OffsetDateTime,
    file: &str,
    text: &[u8],
) -> Result<Vec<u8>, AnswerFault>
    requires { length text.now ≤ 16777216 }
    ensures { IsDue (IsZoneOver S.reads S.unread S.found S.entries S.files S.strings S.trees (words_shown asked.now) (instant now.now) file.now text.now) result }
{
    match S::open(alloc, text) {
        Ok(source) => match reply(alloc, &source, asked.form, now, &asked.task) {
            Ok(bytes) => Ok(bytes),
            Err(Refusal::Why(words)) => Err(AnswerFault::Line(told_line(alloc, &words)?)),
            Err(Refusal::NoMemory) => Err(AnswerFault::NoMemory),
        },
        Err(Refusal::Why(why)) => Err(AnswerFault::Line(named_line(alloc, file, &why)?)),
        Err(Refusal::NoMemory) => Err(AnswerFault::NoMemory),
    }
}

/// What is due for what words ask, at the instant at which they ask it, over the text of the named file as a source of that kind. The
/// text has at most 16,777,216 bytes.
///
/// # Errors
///
/// The line that tells why there is no answer, or want of memory.
pub fn answer_over<S: ZoneSource>(
    alloc: Global,
    asked: &Asked<'_>,
    now: &OffsetDateTime,
    file: &str,
    text: &[u8],
) -> Result<Vec<u8>, AnswerFault>
    requires { length text.now ≤ 16777216 }
    ensures { IsDue (IsDueOver S.reads S.unread S.found S.entries S.files S.strings S.trees S.forms (words_shown asked.now) (instant now.now) file.now text.now) result }
{
    if asks_form(&asked.task) {
        form_due::<S>(alloc, file, text)
    } else {
        reply_due::<S>(alloc, asked, now, file, text)
    }
}
