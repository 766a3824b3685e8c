//! The answers to the requests over a file.
ghost use Rattle.std.specs.Prelude.{◌≡◌, ◌≤◌, [], ℕ, List, None, IfErr, IfOk, OnOk, MatchResult, length, map};
ghost use Rattle.tz_ever.specs.{Asked.{asked_recurrence, asked_set}, Recurrences.{zone_total}, ZoneShown.{recurrence_of, zone_set_of}};
ghost use Rattle.tz_tzif.specs.Opened.{IsOpenedAs};
ghost use Rattle.zone_tzif_core.specs.{Denotes.{Says}, ZoneFiles.{zone_seen}};
ghost use Rattle.zone_source.specs.Lines.{lines_of};
ghost use Rattle.zone_file_answers.specs.{Due.{answer_line}, Faults.{first_refused, request_refusal}, Told.{AnswersFile, FaultOfFile, TellsOf}};

use crate::fault::FileFault;
use crate::request::read_request;
use std::alloc::Global;
use tz_ever::{ZoneSet, ZoneTz};
use tz_lookup::CompactFault;
use tz_tzif::{FileSpans, TzifFault, opened_shows, read_footer, spans_of};
use zone_answers::show;
use zone_source::{LIMIT, LineList, Lines, text_of};
use zone_tzif_core::{ReadFault, ZoneFile, one_saying, read_file, said_bounds, said_footer};

/// Answers each request over the zone of a file, in order. Lines end at an LF, a CR before it is dropped, and they are
/// numbered from 1. The requests have at most 16,777,216 bytes.
///
/// # Errors
///
/// The first fault: that of the file, else that of the requests, with its line; or want of memory, which comes only where the file
/// has no fault.
pub fn answers(alloc: Global, file: &[u8], requests: &[u8]) -> Result<LineList, FileFault>
    requires { length requests.now ≤ LIMIT }
    ensures { MatchResult result (AnswersFile file.now requests.now) (FaultOfFile file.now requests.now) }
{
    one_saying();
    let zone = match read_file(alloc, file) {
        Ok(zone) => zone,
        Err(ReadFault::Refused) => return Err(FileFault::File),
        Err(ReadFault::NoMemory) => return Err(wanting(file)),
    };
    match spans_of(alloc, "", &zone) {
        Ok(spans) => answer_over(alloc, file, &zone, &spans, requests),
        Err(TzifFault::NoMemory) => Err(FileFault::NoMemory),
        Err(TzifFault::Times) => Err(FileFault::File),
        Err(TzifFault::Offset) => Err(FileFault::File),
        Err(TzifFault::Footer) => Err(FileFault::File),
    }
}

/// Answers each request over the spans of the zone of a file.
fn answer_over(
    alloc: Global,
    file: &[u8],
    zone: &ZoneFile,
    spans: &FileSpans,
    requests: &[u8],
) -> Result<LineList, FileFault>
    requires short { length requests.now ≤ LIMIT }
    requires says { Says file.now (zone_seen zone.now) }
    requires opened { IsOpenedAs [] (zone_seen zone.now) spans.now }
    ensures { MatchResult result (AnswersFile file.now requests.now) (FaultOfFile file.now requests.now) }
{
    let _ = file;
    let _ = zone;
    opened_shows();
    match ZoneSet::build(alloc, &spans.set, spans.recurrence) {
        Ok(set) => answer_all(alloc, &ZoneTz::new(&set), requests),
        Err(CompactFault::NoMemory) => Err(FileFault::NoMemory),
        Err(CompactFault::OffsetRange | CompactFault::Falling | CompactFault::Bound) => {
            unreachable!()
        }
    }
}

/// Why a file is not looked up, where there was no memory to read it: that it is refused, or else this.
fn wanting(file: &[u8]) -> FileFault
    ensures { (requests : List ℕ) → FaultOfFile file.now requests result }
{
    one_saying();
    said_bounds();
    let Some(footer) = said_footer(file) else {
        return FileFault::File;
    };
    match read_footer(footer) {
        Some(_) => FileFault::NoMemory,
        None => FileFault::File,
    }
}

/// Answers each request at a zone.
fn answer_all(alloc: Global, zone: &ZoneTz<'_>, requests: &[u8]) -> Result<LineList, FileFault>
    requires { length requests.now ≤ LIMIT }
    ensures valid { OnOk result (first_refused (zone_total (asked_recurrence zone.now) (asked_set zone.now)) 1 (lines_of requests.now) ≡ None) }
    ensures lines { IfOk result (λ lines. lines ≡ map (answer_line (zone_total (asked_recurrence zone.now) (asked_set zone.now))) (lines_of requests.now)) }
    ensures err { IfErr result (TellsOf (first_refused (zone_total (asked_recurrence zone.now) (asked_set zone.now)) 1 (lines_of requests.now))) }
{
    let mut answers = LineList::new(alloc);
    let mut text = Vec::new(alloc);
    let mut number = 1;
    for line in Lines::new(requests) {
        answer(zone, number, line, &mut text)?;
        answers.push(&text)?;
        number += 1;
    }
    Ok(answers)
}

/// Puts the line of the nth request into the text, in place of what is there.
fn answer(
    zone: &ZoneTz<'_>,
    number: usize,
    line: &[u8],
    text: &mut Vec<u8>,
) -> Result<(), FileFault>
    ensures accepted { OnOk result (request_refusal (zone_total (asked_recurrence zone.now) (asked_set zone.now)) number line.now ≡ None) }
    ensures text { OnOk result (text.new.items ≡ answer_line (zone_total (asked_recurrence zone.now) (asked_set zone.now)) line.now) }
    ensures err { IfErr result (TellsOf (request_refusal (zone_total (asked_recurrence zone.now) (asked_set zone.now)) number line.now)) }
{
    let Some(asked) = text_of(line) else {
        return Err(FileFault::NotText(number));
    };
    let Some(request) = read_request(asked) else {
        return Err(FileFault::Request(number));
    };
    text.clear();
    match show(zone, &request, text) {
        Ok(true) => Ok(()),
        Ok(false) => Err(FileFault::Range(number)),
        Err(_) => Err(FileFault::NoMemory),
    }
}
