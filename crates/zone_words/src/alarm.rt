//! The words of an alarm.
ghost use Rattle.std.specs.Prelude.{◌≡◌, map, option_map};
ghost use Rattle.zone_words.specs.{Alarms.{alarm_in, are_days, chosen, days_in, ending_in, days_of, every_in, first_in, fold_in, gap_in, has_day, is_day, last_in, ringing_in, until_in}, Commands.{standing_for}, Shown.{given_shown, row_shown, word_shown}, TaskShown.{alarm_shown}};
ghost use Rattle.zone_words.specs.Told.{Reads};

use crate::command::standing_for;
use crate::given::{Given, value_of};
use crate::task::{Alarm, FoldRule, GapRule};
use crate::values::{date_in, number_in, number_told, time_in};
use crate::{Reading, WordCause, WordFault};
use civil_base::{Date, Time};
use std::alloc::Global;

const GAP_RULES: [(&str, GapRule); 3] = [
    ("skip", GapRule::Skip),
    ("before", GapRule::Before),
    ("after", GapRule::After),
];

const FOLD_RULES: [(&str, FoldRule); 3] = [
    ("first", FoldRule::First),
    ("second", FoldRule::Second),
    ("both", FoldRule::Both),
];

/// Whether a text is a weekday's name in three letters.
fn is_day(text: &[u8]) -> bool
    ensures { result ≡ is_day text.now }
{
    text == b"mon".as_slice()
        || text == b"tue".as_slice()
        || text == b"wed".as_slice()
        || text == b"thu".as_slice()
        || text == b"fri".as_slice()
        || text == b"sat".as_slice()
        || text == b"sun".as_slice()
}

/// Whether all parts of a text between commas are weekdays.
fn are_days(text: &[u8]) -> bool
    ensures { result ≡ are_days text.now }
{
    text.split(|byte| *byte == b',').all(|part| is_day(part))
}

/// Whether a weekday is one of the parts.
fn has_day(text: &[u8], day: &[u8]) -> bool
    ensures { result ≡ has_day text.now day.now }
{
    text.split(|byte| *byte == b',').any(|part| part == day)
}

/// Whether each weekday from Monday on is one of the parts.
fn days_of(text: &[u8]) -> [bool; 7]
    ensures { result ≡ days_of text.now }
{
    [
        has_day(text, b"mon"),
        has_day(text, b"tue"),
        has_day(text, b"wed"),
        has_day(text, b"thu"),
        has_day(text, b"fri"),
        has_day(text, b"sat"),
        has_day(text, b"sun"),
    ]
}

/// On which weekdays it rings; on all where none are told.
fn days_in<'w>(given: &[Given<'w>]) -> Reading<'w, [bool; 7]>
    ensures { Reads (λ days. days) result (days_in (map given_shown given.now)) }
{
    match value_of(given, "--on") {
        None => Ok([true; 7]),
        Some(word) => {
            if are_days(word.as_bytes()) {
                Ok(days_of(word.as_bytes()))
            } else {
                Err(WordFault::of(word, WordCause::Weekdays))
            }
        }
    }
}

fn first_in<'w>(alloc: Global, command: &'w str, given: &[Given<'w>]) -> Reading<'w, Date>
    ensures { Reads (λ date. date) result (first_in command.now (map given_shown given.now)) }
{
    match value_of(given, "--from") {
        None => Err(WordFault::of(command, WordCause::FirstMissing)),
        Some(word) => date_in(alloc, word),
    }
}

/// A last day, which doesn't come before the first.
fn last_in<'w>(alloc: Global, first: Date, word: &'w str) -> Reading<'w, Date>
    ensures { Reads (λ date. date) result (last_in first word.now) }
{
    let last = date_in(alloc, word)?;
    if last < first {
        return Err(WordFault::of(word, WordCause::BeforeFirst));
    }
    Ok(last)
}

/// The last day, where that is told.
fn until_in<'w>(alloc: Global, first: Date, given: &[Given<'w>]) -> Reading<'w, Option<Date>>
    ensures { Reads (λ date. date) result (until_in first (map given_shown given.now)) }
{
    match value_of(given, "--until") {
        None => Ok(None),
        Some(word) => Ok(Some(last_in(alloc, first, word)?)),
    }
}

/// So many days from each day to the next; 1 where that isn't told.
fn every_in<'w>(given: &[Given<'w>]) -> Reading<'w, u16>
    ensures { Reads (λ days. days) result (every_in (map given_shown given.now)) }
{
    match value_of(given, "--every") {
        None => Ok(1),
        Some(word) => number_in(word),
    }
}

/// What the word of an option stands for by the rows, or what holds where it isn't told.
fn chosen<'w, T: Copy>(
    word: Option<&'w str>,
    rows: &[(&str, T)],
    cause: WordCause,
    default: T,
) -> Reading<'w, T>
    ensures { Reads (λ value. value) result
        (chosen (standing_for (map row_shown rows.now)) cause default (option_map word_shown word.entry)) }
{
    match word {
        None => Ok(default),
        Some(word) => standing_for(rows, word).ok_or(WordFault::of(word, cause)),
    }
}

fn gap_in<'w>(given: &[Given<'w>]) -> Reading<'w, GapRule>
    ensures { Reads (λ rule. rule) result (gap_in (map given_shown given.now)) }
{
    let word = value_of(given, "--gap");
    chosen(word, &GAP_RULES, WordCause::GapRule, GapRule::Skip)
}

fn fold_in<'w>(given: &[Given<'w>]) -> Reading<'w, FoldRule>
    ensures { Reads (λ rule. rule) result (fold_in (map given_shown given.now)) }
{
    let word = value_of(given, "--fold");
    chosen(word, &FOLD_RULES, WordCause::FoldRule, FoldRule::First)
}

/// The alarm of a time of day and the options.
pub(crate) fn alarm_in<'w>(
    alloc: Global,
    command: &'w str,
    time: &'w str,
    given: &[Given<'w>],
) -> Reading<'w, Alarm>
    ensures { Reads alarm_shown result (alarm_in command.now time.now (map given_shown given.now)) }
{
    let time = time_in(alloc, time)?;
    let first = first_in(alloc, command, given)?;
    ending_in(alloc, command, time, first, given)
}

/// The alarm of a time of day and a first day, by its end and the other options.
fn ending_in<'w>(
    alloc: Global,
    command: &'w str,
    time: Time,
    first: Date,
    given: &[Given<'w>],
) -> Reading<'w, Alarm>
    ensures { Reads alarm_shown result (ending_in command.now time first (map given_shown given.now)) }
{
    let count = number_told(given, "--count")?;
    let until = until_in(alloc, first, given)?;
    if count.is_none() && until.is_none() {
        return Err(WordFault::of(command, WordCause::EndMissing));
    }
    ringing_in(time, first, count, until, given)
}

/// The alarm of a time of day, a first day and an end, by the other options.
fn ringing_in<'w>(
    time: Time,
    first: Date,
    count: Option<u16>,
    until: Option<Date>,
    given: &[Given<'w>],
) -> Reading<'w, Alarm>
    ensures { Reads alarm_shown result (ringing_in time first count until (map given_shown given.now)) }
{
    let every = every_in(given)?;
    let days = days_in(given)?;
    let gap = gap_in(given)?;
    let fold = fold_in(given)?;
    Ok(Alarm {
        time,
        first,
        count,
        until,
        every,
        days,
        gap,
        fold,
    })
}
