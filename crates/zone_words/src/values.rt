//! The values that words spell.
ghost use Rattle.std.specs.Prelude.{◌≡◌, ◌++◌, ◌∷◌, [], IfOk, OnOk, map, string_bytes};
ghost use Rattle.zone_words.specs.{Readings.{local_in}, TimesShown.{asked}, Alarms.{if_told}, Options.{value_of}, Shown.{given_shown, word_shown}, Told.{Reads}, Values.{date_cause, date_in, digits_in, instant_in, instants_in, number_in, number_of, of_one, of_two, text_in, time_in, year_in, year_of}};

use crate::given::{Given, value_of};
use crate::instant::{Asked, read_instant};
use crate::local::read_local;
use crate::text_fault::TextFault;
use crate::{Reading, WordCause, WordFault};
use basics::{is_numeral, u16_of_digits};
use civil_base::{Date, PlainDateTime, Time};
use std::alloc::{AllocError, Global};

/// Two words as one text, with a space between them.
fn joined(alloc: Global, first: &str, second: &str) -> Result<String, AllocError>
    ensures { IfOk result (λ text. string_bytes text ≡ first.now ++ 32 ∷ second.now) }
{
    let mut text = String::from_str(alloc, first)?;
    text.push_str(" ")?;
    text.push_str(second)?;
    Ok(text)
}

/// The local time that two words spell as one text.
fn local_of(
    alloc: Global,
    date: &str,
    time: &str,
) -> Result<Result<PlainDateTime, TextFault>, AllocError>
    ensures { IfOk result (λ read. read ≡ local_in (date.now ++ 32 ∷ time.now)) }
{
    let text = joined(alloc, date, time)?;
    Ok(read_local(text.as_str()))
}

/// What a text lacks that is to be a date.
fn date_cause(fault: TextFault) -> TextFault
    ensures { result ≡ date_cause fault }
{
    match fault {
        TextFault::NoSuchDate => TextFault::NoSuchDate,
        _ => TextFault::DateMissing,
    }
}

/// The date `YYYY-MM-DD`.
#[tactic(auto, unfolding(crate::specs::Values::date_in))]
pub(crate) fn date_in<'w>(alloc: Global, word: &'w str) -> Reading<'w, Date>
    ensures { Reads (λ date. date) result (date_in word.now) }
{
    match local_of(alloc, word, "00:00")? {
        Ok(local) => Ok(local.date()),
        Err(fault) => Err(WordFault::of(word, WordCause::Text(date_cause(fault)))),
    }
}

/// The time of day `hh:mm`, maybe with seconds.
#[tactic(auto, unfolding(crate::specs::Values::time_in))]
pub(crate) fn time_in<'w>(alloc: Global, word: &'w str) -> Reading<'w, Time>
    ensures { Reads (λ time. time) result (time_in word.now) }
{
    match local_of(alloc, "2000-01-01", word)? {
        Ok(local) => Ok(local.time()),
        Err(fault) => Err(WordFault::of(word, WordCause::Text(fault))),
    }
}

/// The local time of a date and a time of day in two words.
fn of_two<'w>(alloc: Global, date: &'w str, time: &'w str) -> Reading<'w, PlainDateTime>
    ensures { Reads (λ local. local) result (of_two date.now time.now) }
{
    match local_of(alloc, date, time)? {
        Ok(local) => Ok(local),
        Err(fault) => Err(WordFault {
            word: date,
            more: Some(time),
            cause: WordCause::Text(fault),
        }),
    }
}

/// The local time of a date and a time of day in one word.
fn of_one(text: &str) -> Reading<'_, PlainDateTime>
    ensures { Reads (λ local. local) result (of_one text.now) }
{
    match read_local(text) {
        Ok(local) => Ok(local),
        Err(fault) => Err(WordFault::of(text, WordCause::Text(fault))),
    }
}

/// The local time that is all that is left of a command's words, in one of them or in two.
pub(crate) fn text_in<'w>(
    alloc: Global,
    command: &'w str,
    words: &[&'w str],
) -> Reading<'w, PlainDateTime>
    ensures { Reads (λ local. local) result (text_in command.now (map word_shown words.now)) }
{
    match words {
        [] => Err(WordFault::of(command, WordCause::TooFew)),
        [text] => of_one(*text),
        [date, time] => of_two(alloc, *date, *time),
        [_, _, more, ..] => Err(WordFault::of(*more, WordCause::TooMany)),
    }
}

/// The instant that a word asks for.
pub(crate) fn instant_in(word: &str) -> Reading<'_, Asked>
    ensures { Reads asked result (instant_in word.now) }
{
    match read_instant(word) {
        Ok(asked) => Ok(asked),
        Err(fault) => Err(WordFault::of(word, WordCause::Text(fault))),
    }
}

fn add_instant(found: &mut Vec<Asked>, instant: Asked) -> Result<(), AllocError>
    ensures { OnOk result (map asked found.new.items ≡ map asked found.old.items ++ asked instant ∷ []) }
{
    found.extend_from_slice(&[instant])
}

/// The instants that words ask for.
pub(crate) fn instants_in<'w>(alloc: Global, words: &[&'w str]) -> Reading<'w, Vec<Asked>>
    ensures { Reads (λ found. map asked found.items) result (instants_in [] (map word_shown words.now)) }
{
    let mut found = Vec::new(alloc);
    for word in words {
        let instant = instant_in(*word)?;
        add_instant(&mut found, instant)?;
    }
    Ok(found)
}

/// The number of 16 bits that ASCII digits write.
fn digits_in(word: &str) -> Option<u16>
    ensures { result ≡ digits_in word.now }
{
    if is_numeral(word) {
        u16_of_digits(word)
    } else {
        None
    }
}

/// The number from 1 to 65,535 that ASCII digits write.
#[tactic(auto, unfolding(crate::specs::Values::number_of))]
fn number_of(word: &str) -> Option<u16>
    ensures { result ≡ number_of word.now }
{
    match digits_in(word) {
        Some(number) if number > 0 => Some(number),
        _ => None,
    }
}

pub(crate) fn number_in(word: &str) -> Reading<'_, u16>
    ensures { Reads (λ number. number) result (number_in word.now) }
{
    number_of(word).ok_or(WordFault::of(word, WordCause::Number))
}

/// The number behind an option, where it is given.
pub(crate) fn number_told<'w>(given: &[Given<'w>], name: &str) -> Reading<'w, Option<u16>>
    ensures { Reads (λ number. number) result (if_told number_in (value_of (map given_shown given.now) name.now)) }
{
    match value_of(given, name) {
        None => Ok(None),
        Some(word) => Ok(Some(number_in(word)?)),
    }
}

/// The year from 0 to 9999 that ASCII digits write.
#[tactic(auto, unfolding(crate::specs::Values::year_of))]
fn year_of(word: &str) -> Option<u16>
    ensures { result ≡ year_of word.now }
{
    match digits_in(word) {
        Some(year) if year <= 9999 => Some(year),
        _ => None,
    }
}

pub(crate) fn year_in(word: &str) -> Reading<'_, u16>
    ensures { Reads (λ year. year) result (year_in word.now) }
{
    year_of(word).ok_or(WordFault::of(word, WordCause::Year))
}
