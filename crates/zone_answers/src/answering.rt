//! The answers to the requests over a source, and these written to an output.
ghost use Rattle.std.specs.{Prelude.{◌≡◌, ◌≤◌, ℤ, true, None, All, IfErr, IfOk, OnOk, length, map, OnErr}, List.{flat_map}};
ghost use Rattle.zone_source.specs.{Faults.{source_fault}, Lines.{lines_of}, Zones.{values_of}, Responses.{Responds}};
ghost use Rattle.zone_table.specs.{BoundedTables.{IsBoundedTable}, Tables.{IsTableOf}};
ghost use Rattle.civil_base.specs.Ranges.{IsOffset};
ghost use Rattle.zone_answers.specs.{Asked.{asked}, Due.{answer_line, answer_lines, answer_lines_with, answer_text, shown, shown_at, shown_for, shown_with}};
ghost use Rattle.zone_answers.specs.{Faults.{IsValid, IsValidWith, dates_refusal, fault, fault_with, first_refused, has_dates, request_refusal, source_refusal}, Found.{found_in_table}, Opened.{table_of, AreOpened}, ReadBack.{IsReadBack}, Requests.{IsSpelled}};
ghost use Rattle.zone_answers.specs.{Told.{TellsOf, TellsReading, reading_told}, Ends.{writes_with}, Responses.{RespondsError, due_in, lines_in}};
ghost use Rattle.zone_outside.specs.{Outside.{Rose}, Seen.{Grew, GrewBySome, output_seen}};

use crate::error::{AnswerError, ReadingError, Side};
use crate::fault::write_reading_fault;
use crate::opened::{OpenedZone, Zones};
use crate::request::Spelled;
use crate::same_day::{LATEST, SameDay, are_alike};
use crate::summary::summary_line;
use std::alloc::Global;
use std::marker::PhantomData;
use tz_lookup::CompactSet;
use zone_line::LineParser;
use zone_source::{
    Answered, Failed, LIMIT, LineList, Lines, Sink, TextAnswers, text_of, write_all,
};
use zone_table::Table;

/// The table that the lines of a source join to. Lines end at an LF, a CR before it is dropped, and they are numbered from
/// 1. The source is at most 16,777,216 bytes long.
///
/// # Errors
///
/// The first fault of the source, with its line, or want of memory.
pub fn read_table(alloc: Global, parser: &LineParser, source: &[u8]) -> Result<Table, AnswerError>
    requires { length source.now ≤ LIMIT }
    ensures ok { OnOk result (source_fault source.now ≡ None) }
    ensures table { IfOk result (λ table. IsTableOf table (values_of source.now)) }
    ensures bounded { IfOk result IsBoundedTable }
    ensures err { IfErr result (TellsOf (source_refusal source.now)) }
{
    Ok(zone_source::read_table(alloc, parser, source)?)
}

/// Answers each request over the source, in order. Lines end at an LF, a CR before it is dropped, and they are numbered from
/// 1.
///
/// # Errors
///
/// The first fault, with its line: that of the source, else that of the requests; or want of memory.
pub fn answers(
    alloc: Global,
    parser: &LineParser,
    source: &[u8],
    requests: &[u8],
) -> Result<LineList, AnswerError>
    requires source { length source.now ≤ LIMIT }
    requires requests { length requests.now ≤ LIMIT }
    ensures valid { OnOk result (IsValid source.now requests.now) }
    ensures lines { IfOk result (λ lines. lines ≡ answer_lines source.now requests.now) }
    ensures read_back { OnOk result (All IsReadBack (shown source.now requests.now)) }
    ensures err { IfErr result (TellsOf (fault source.now requests.now)) }
{
    match answers_with::<CompactSet>(alloc, parser, source, requests) {
        Ok(lines) => Ok(lines),
        Err(ReadingError::Answer(error)) => Err(error),
        Err(ReadingError::RulesEnd(_)) => unreachable!(),
    }
}

/// The same where zones are opened in another way.
///
/// # Errors
///
/// The first fault, with its line, as zones are read in that way: that of the source, else that of the requests; or want of memory.
pub fn answers_with<Z: OpenedZone>(
    alloc: Global,
    parser: &LineParser,
    source: &[u8],
    requests: &[u8],
) -> Result<LineList, ReadingError>
    requires source { length source.now ≤ LIMIT }
    requires requests { length requests.now ≤ LIMIT }
    ensures valid { OnOk result (IsValidWith Z.read source.now requests.now) }
    ensures lines { IfOk result (λ lines. lines ≡ answer_lines_with Z.read source.now requests.now) }
    ensures read_back { OnOk result (All IsReadBack (shown_with Z.read source.now requests.now)) }
    ensures err { IfErr result (TellsReading (fault_with Z.read source.now requests.now)) }
{
    let table = read_table(alloc, parser, source)?;
    answer_all::<Z>(alloc, &table, requests)
}

/// Answers each request at the zones of the table.
fn answer_all<Z: OpenedZone>(
    alloc: Global,
    table: &Table,
    requests: &[u8],
) -> Result<LineList, ReadingError>
    requires bounded { IsBoundedTable table.now }
    requires limit { length requests.now ≤ LIMIT }
    ensures valid { OnOk result (first_refused (found_in_table Z.read table.now) 1 (lines_of requests.now) ≡ None) }
    ensures lines { IfOk result (λ lines. lines ≡ map (answer_line (found_in_table Z.read table.now)) (lines_of requests.now)) }
    ensures read_back { OnOk result (All IsReadBack (flat_map (shown_for (found_in_table Z.read table.now)) (lines_of requests.now))) }
    ensures err { IfErr result (TellsReading (first_refused (found_in_table Z.read table.now) 1 (lines_of requests.now))) }
{
    let mut zones = Zones::<Z>::new(alloc, table);
    let mut answers = LineList::new(alloc);
    let mut text = Vec::new(alloc);
    let mut number = 1;
    for line in Lines::new(requests) {
        answer(&mut zones, number, line, &mut text)?;
        answers.push(&text)?;
        number += 1;
    }
    Ok(answers)
}

/// Puts the line of the nth request into the text, in place of what is there.
fn answer<'r, Z: OpenedZone>(
    zones: &mut Zones<'_, 'r, Z>,
    number: usize,
    line: &'r [u8],
    text: &mut Vec<u8>,
) -> Result<(), ReadingError>
    requires { AreOpened Z.OpenedZone zones.old }
    ensures accepted { OnOk result (request_refusal (found_in_table Z.read (table_of zones.old)) number line.now ≡ None) }
    ensures text { OnOk result (text.new.items ≡ answer_line (found_in_table Z.read (table_of zones.old)) line.now) }
    ensures read_back { OnOk result (All IsReadBack (shown_for (found_in_table Z.read (table_of zones.old)) line.now)) }
    ensures same { table_of zones.new ≡ table_of zones.old }
    ensures opened { AreOpened Z.OpenedZone zones.new }
    ensures err { IfErr result (TellsReading (request_refusal (found_in_table Z.read (table_of zones.old)) number line.now)) }
{
    if zones.show_again(line, text)? {
        return Ok(());
    }
    let Some(asked) = text_of(line) else {
        return Err(ReadingError::Answer(AnswerError::NotText(Side::Requests, number)));
    };
    let Some(spelled) = Spelled::read(asked) else {
        return Err(ReadingError::Answer(AnswerError::Request(number)));
    };
    let place = zones.place_of(spelled.request.name(), number)?;
    let zone = zones.zone_at(place);
    show_line(zone, &spelled, number, text)?;
    if are_alike(zones.before, line) {
        let day = SameDay::of(zone, asked, &spelled.request, text, LATEST);
        zones.keep(asked, day);
    } else {
        zones.keep(asked, None);
    }
    Ok(())
}

/// Puts the line of the nth request at a zone into the text, in place of what is there.
fn show_line<Z: OpenedZone>(
    zone: &Z,
    spelled: &Spelled<'_>,
    number: usize,
    text: &mut Vec<u8>,
) -> Result<(), ReadingError>
    requires { IsSpelled (asked spelled.now.request) spelled.now.value.now }
    ensures dates { OnOk result (has_dates (Z.total_at zone.now) (asked spelled.now.request) ≡ true) }
    ensures text { OnOk result (text.new.items ≡ answer_text (shown_at (Z.total_at zone.now) (asked spelled.now.request))) }
    ensures err { IfErr result (TellsReading (dates_refusal number (asked spelled.now.request) (Z.total_at zone.now))) }
    ensures range { (t : ℤ) → IsOffset (Z.total_at zone.now t) }
{
    text.clear();
    match zone.show_spelled(&spelled.request, spelled.value.as_bytes(), text) {
        Ok(true) => Ok(()),
        Ok(false) => Err(ReadingError::Answer(AnswerError::Range(number))),
        Err(_) => Err(ReadingError::Answer(AnswerError::NoMemory)),
    }
}

/// What is written of the answers.
#[derive(Clone, Copy, Debug, PartialEq, Eq)]
pub(crate) enum Form {
    /// Their lines.
    Lines,
    /// A summary of them.
    Summary,
}

/// The answers to requests over a source, where zones are opened in this way.
#[derive(Drop)]
pub struct SourceAnswers<'p, Z> {
    parser: &'p LineParser,
    zones: PhantomData<Z>,
}

impl<'p, Z> SourceAnswers<'p, Z> {
    /// Those that this parser reads.
    pub fn new(parser: &'p LineParser) -> SourceAnswers<'p, Z>
        ensures { result.parser.now ≡ parser.now }
    {
        SourceAnswers {
            parser,
            zones: PhantomData,
        }
    }
}

impl<Z: OpenedZone> TextAnswers for SourceAnswers<'_, Z> {
    ghost use Rattle.zone_answers.specs.{Due.{due_bytes_with}, Ends.{writes_with}};
    ghost use Rattle.zone_answers.specs.EndLaws as laws;

    ghost writes = { λ _. writes_with Z.read (due_bytes_with Z.read) };

    fn respond<O: Sink>(
        &self,
        alloc: Global,
        source: &[u8],
        requests: &[u8],
        output: &mut O,
    ) -> Answered {
        respond::<Z, O>(alloc, self.parser, source, requests, Form::Lines, output)
    }

    ghost ends_well = { λ _. laws.ends_well Z.read (due_bytes_with Z.read) };
}

/// Answers the requests over the source, and writes the answers in the form, or the first fault.
pub(crate) fn respond<Z: OpenedZone, O: Sink>(
    alloc: Global,
    parser: &LineParser,
    source: &[u8],
    requests: &[u8],
    form: Form,
    output: &mut O,
) -> Answered
    requires source { length source.now ≤ LIMIT }
    requires requests { length requests.now ≤ LIMIT }
    ensures { Responds (writes_with Z.read (due_in Z.read form)) source.now requests.now (output_seen O.Sink output.old) (output_seen O.Sink output.new) result }
{
    match answers_with::<Z>(alloc, parser, source, requests) {
        Ok(lines) => match write_lines(output, &lines, form) {
            Ok(()) => Answered::Done,
            Err(_) => Answered::Failed,
        },
        Err(error) => write_error(output, &error),
    }
}

/// Writes the lines in the form.
fn write_lines<O: Sink>(output: &mut O, lines: &LineList, form: Form) -> Result<(), Failed>
    ensures ok { OnOk result (Grew (output_seen O.Sink output.old) (output_seen O.Sink output.new) (lines_in form lines.now)) }
    ensures failed { OnErr result (Rose (O.faults output.old) (O.faults output.new)) }
    ensures prefix { OnErr result (GrewBySome (output_seen O.Sink output.old) (output_seen O.Sink output.new) (lines_in form lines.now)) }
{
    match form {
        Form::Lines => write_all(output, lines.as_bytes()),
        Form::Summary => write_all(output, summary_line(lines).as_bytes()),
    }
}

/// Writes the line of the fault, if the error tells one.
fn write_error<O: Sink>(output: &mut O, error: &ReadingError) -> Answered
    ensures { RespondsError (reading_told error.now) (output_seen O.Sink output.old) (output_seen O.Sink output.new) result }
{
    if !error.is_fault() {
        return Answered::NoMemory;
    }
    let mut line = [0; 64];
    let end = write_reading_fault(error, &mut line);
    match write_all(output, &line[..end]) {
        Ok(()) => Answered::Fault,
        Err(_) => Answered::Failed,
    }
}
