//! Requests of `zone_answers`, answered as they come: to 2099 as that program does, from 2100 on by what goes on for ever.
ghost use Rattle.std.specs.Prelude.{◌≡◌, ℕ, List, Ok, Err, OnErr, OnOk};
ghost use Rattle.sefunjaro.specs.Sources.{table_in};
ghost use Rattle.zone_answers.specs.{Asked.{asked}, AskedLaws.{Asks}, Faults.{zone_refusal}, Found.{Found, found_in_table, to_2099}, Requests.{IsSpelled, name_of, request_of}, Told.{TellsReading}};
ghost use Rattle.zone_command.specs.{Refusals.{IsTold}, Days.{IsDayOf}, Kept.{AreOf}, KeptLaws.{AreOf-prop, IsDayOf-prop}, Plain.{found_answer, is_to_2099, read_answer, shown_answer}, Told.{IsPut}};

use crate::answers::refusal_of;
use crate::any_source::unknown_words;
use crate::ever_zone::EverZone;
use crate::source::Refusal;
use crate::source_words::schedule_words;
use crate::words::refused;
use sefunjaro::OpenSource;
use std::alloc::{AllocError, Global};
use tz_lookup::CompactSet;
use zone_answers::{
    AnswerError, OpenedZone, ReadingError, Request, SameDay, Spelled, Zones, are_alike,
};
use zone_words::Responder;

/// 2100-01-01 00:00:00, in nanoseconds.
const YEAR_2100: u64 = 4_102_444_800_000_000_000;

/// Whether the instant by UTC, or the local time, lies before that.
fn is_to_2099(request: &Request<'_>) -> bool
    ensures { result ≡ is_to_2099 (asked request.now) }
{
    match request {
        Request::At(_, nanoseconds) => *nanoseconds < i128::from(YEAR_2100),
        Request::Local(_, local) => {
            local.assume_utc().unix_timestamp_nanos() < i128::from(YEAR_2100)
        }
    }
}

/// Why the zone of a request can't be asked, or want of memory.
fn refusal_for(
    alloc: Global,
    source: &OpenSource,
    request: &Request<'_>,
    error: ReadingError,
) -> Refusal
    ensures { (found : Found) → TellsReading (zone_refusal 1 found) error → IsTold (λ words. found_answer (table_in source.now) (asked request.now) found ≡ Err words) result }
{
    let name = request.name();
    match error {
        ReadingError::RulesEnd(_) => {
            refusal_of(alloc, name, b"the zone's rules end before that year")
        }
        ReadingError::Answer(AnswerError::UnknownZone(_)) => {
            match unknown_words(alloc, source, name) {
                Ok(why) => refusal_of(alloc, name, &why),
                Err(_) => Refusal::NoMemory,
            }
        }
        ReadingError::Answer(AnswerError::Schedule(_, fault)) => {
            refusal_of(alloc, name, schedule_words(fault))
        }
        ReadingError::Answer(AnswerError::OffsetRange(_)) => {
            refusal_of(alloc, name, b"this zone has an offset of 26 hours or more")
        }
        // No other is told of a zone.
        ReadingError::Answer(_) => Refusal::NoMemory,
    }
}

/// A request, its line, and whether it may be of the day of the one before.
#[derive(Clone, Copy)]
struct Line<'l> {
    text: &'l str,
    spelled: &'l Spelled<'l>,
    is_alike: bool,
}

/// The text of an answer, and the requests that it answers but for the time of day.
#[derive(Drop)]
struct Reply {
    text: Vec<u8>,
    day: Option<SameDay>,
}

/// Puts the answer to a request of a zone into a reply, in place of what is there.
#[tactic(auto, unfolding(crate::specs::Plain::shown_answer))]
fn show<Z: OpenedZone>(
    alloc: Global,
    zone: &Z,
    line: &Line<'_>,
    reply: &mut Reply,
) -> Result<(), Refusal>
    requires { IsSpelled (asked line.now.spelled.now.request) line.now.spelled.now.value.now }
    ensures answer { IsPut (shown_answer (asked line.now.spelled.now.request) (Z.total_at zone.now)) reply.new.text.items result }
    ensures day { OnOk result ((names : List ℕ → Found) → Asks request_of line.now.text.now (asked line.now.spelled.now.request)
        → names (name_of (asked line.now.spelled.now.request)) ≡ Ok (Z.total_at zone.now) → IsDayOf names line.now.text.now reply.new.day) }
    ensures kept { OnErr result (reply.new.day ≡ reply.old.day) }
{
    let request = &line.spelled.request;
    reply.text.clear();
    match zone.show_spelled(request, line.spelled.value.as_bytes(), &mut reply.text) {
        Ok(true) => {
            reply.day = None;
            if line.is_alike {
                reply.day = SameDay::of(zone, line.text, request, &reply.text, YEAR_2100);
            }
            Ok(())
        }
        Ok(false) => Err(refusal_of(
            alloc,
            request.name(),
            b"a date lies outside the years -9999 to 9999",
        )),
        Err(_) => Err(Refusal::NoMemory),
    }
}

/// The same of the zone that its name finds in a source. Each is opened once.
fn answer<Z: OpenedZone>(
    alloc: Global,
    source: &OpenSource,
    zones: &mut Zones<'_, '_, Z>,
    line: &Line<'_>,
    reply: &mut Reply,
) -> Result<(), Refusal>
    requires spelled { IsSpelled (asked line.now.spelled.now.request) line.now.spelled.now.value.now }
    requires asks { Asks request_of line.now.text.now (asked line.now.spelled.now.request) }
    requires known { AreOf Z.OpenedZone (table_in source.now) zones.old }
    ensures known { AreOf Z.OpenedZone (table_in source.now) zones.new }
    ensures answer { IsPut (read_answer Z.read (table_in source.now) (asked line.now.spelled.now.request)) reply.new.text.items result }
    ensures day { OnOk result (IsDayOf (found_in_table Z.read (table_in source.now)) line.now.text.now reply.new.day) }
    ensures kept { OnErr result (reply.new.day ≡ reply.old.day) }
{
    match zones.place_for(line.spelled.request.name(), 1) {
        Ok(place) => show(alloc, zones.zone_at(place), line, reply),
        Err(error) => Err(refusal_for(alloc, source, &line.spelled.request, error)),
    }
}

/// What answers the requests of `zone_answers` over a source. The zone of a name is opened once to 2099, and once for ever.
#[derive(Drop)]
pub(crate) struct PlainStream<'s> {
    source: &'s OpenSource,
    today: Zones<'s, 's, CompactSet>,
    ever: Zones<'s, 's, EverZone>,
    // the line of the request to 2099 that was answered last by itself
    before: Vec<u8>,
    reply: Reply,
    alloc: Global,
    ghost of_today: { AreOf ⟦<CompactSet as OpenedZone>⟧ (table_in source.now) today } by { AreOf-prop _ _ today },
    ghost of_ever: { AreOf ⟦<EverZone as OpenedZone>⟧ (table_in source.now) ever } by { AreOf-prop _ _ ever },
    ghost of_day: { IsDayOf (found_in_table to_2099 (table_in source.now)) before.items reply.day } by { IsDayOf-prop _ _ reply.day },
}

impl<'s> PlainStream<'s> {
    ghost use Rattle.std.specs.Prelude.{◌≡◌, IfOk, IsTrue, None, Ok, Some, false};
    ghost use Rattle.sefunjaro.specs.Sources.{table_in};
    ghost use Rattle.zone_answers.specs.{Asked.{asked}, AskedLaws.{Asks}, Found.{found_in_table, to_2099}, Requests.{IsSpelled, request_of}, SameDays.{IsAdded}};
    ghost use Rattle.zone_command.specs.{Days.{IsDayOf}, EverReadings.{for_ever}, Plain.{asked_answer, plain_answer, plain_replies, read_answer, year_2100}, Told.{IsPut}};

    /// What answers over that source. It takes no memory.
    pub(crate) fn new(alloc: Global, source: &'s OpenSource) -> PlainStream<'s>
        ensures { ⟦<PlainStream<'s> as Responder>⟧.replies result ≡ plain_replies (table_in source.now) }
    {
        PlainStream {
            source,
            today: Zones::new(alloc, source.table()),
            ever: Zones::new(alloc, source.table()),
            before: Vec::new(alloc),
            reply: Reply {
                text: Vec::new(alloc),
                day: None,
            },
            alloc,
        }
    }

    /// Keeps the line of a request that was answered by itself. It is of no day yet.
    fn keep(&mut self, text: &str) -> Result<(), AllocError>
        requires { self.old.reply.day ≡ None }
        ensures source { self.new.source.now ≡ self.old.source.now }
        ensures text { self.new.reply.text.items ≡ self.old.reply.text.items }
    {
        self.before.clear();
        self.before.extend_from_slice(text.as_bytes())?;
        Ok(())
    }

    /// Replies to a request to 2099, and keeps its line.
    fn answer_today<'t>(&mut self, text: &'t str, spelled: &'t Spelled<'t>) -> Result<(), Refusal>
        requires spelled { IsSpelled (asked spelled.now.request) spelled.now.value.now }
        requires asks { Asks request_of text.now (asked spelled.now.request) }
        ensures source { self.new.source.now ≡ self.old.source.now }
        ensures answer { IsPut (read_answer to_2099 (table_in self.old.source.now) (asked spelled.now.request)) self.new.reply.text.items result }
    {
        let is_alike = are_alike(&self.before, text.as_bytes());
        let line = Line {
            text,
            spelled,
            is_alike,
        };
        match answer(
            self.alloc,
            self.source,
            &mut self.today,
            &line,
            &mut self.reply,
        ) {
            Ok(()) if is_alike => Ok(()),
            Ok(()) => {
                self.reply.day = None;
                match self.keep(text) {
                    Ok(()) => Ok(()),
                    Err(_) => Err(Refusal::NoMemory),
                }
            }
            Err(refusal) => Err(refusal),
        }
    }

    /// Replies to a later one.
    fn answer_ever<'t>(&mut self, text: &'t str, spelled: &'t Spelled<'t>) -> Result<(), Refusal>
        requires spelled { IsSpelled (asked spelled.now.request) spelled.now.value.now }
        requires asks { Asks request_of text.now (asked spelled.now.request) }
        ensures source { self.new.source.now ≡ self.old.source.now }
        ensures answer { IsPut (read_answer for_ever (table_in self.old.source.now) (asked spelled.now.request)) self.new.reply.text.items result }
    {
        let line = Line {
            text,
            spelled,
            is_alike: false,
        };
        match answer(
            self.alloc,
            self.source,
            &mut self.ever,
            &line,
            &mut self.reply,
        ) {
            Ok(()) => {
                self.reply.day = None;
                Ok(())
            }
            Err(refusal) => Err(refusal),
        }
    }

    /// Replies to a text.
    fn answer_text(&mut self, text: &str) -> Result<(), Refusal>
        ensures source { self.new.source.now ≡ self.old.source.now }
        ensures answer { IsPut (asked_answer (table_in self.old.source.now) (request_of text.now)) self.new.reply.text.items result }
    {
        match Spelled::read(text) {
            Some(spelled) if is_to_2099(&spelled.request) => self.answer_today(text, &spelled),
            Some(spelled) => self.answer_ever(text, &spelled),
            None => Err(refused(self.alloc, FORM)),
        }
    }

    /// Adds the answer to a line to the output, if it asks what differs from the one before in the time of a day alone.
    fn answer_again(&self, line: &[u8], output: &mut Vec<u8>) -> Result<bool, AllocError>
        ensures answer { IfOk result (λ has. IsTrue has → IsAdded (found_in_table to_2099 (table_in self.now.source.now)) year_2100 line.now output.old.items output.new.items) }
        ensures none { IfOk result (λ has. has ≡ false → output.new.items ≡ output.old.items) }
    {
        match &self.reply.day {
            Some(day) => day.add(&self.before, line, output),
            None => Ok(false),
        }
    }

    /// Replies to a line.
    fn answer_line(&mut self, line: &[u8]) -> Result<(), Refusal>
        ensures source { self.new.source.now ≡ self.old.source.now }
        ensures answer { IsPut (plain_answer (table_in self.old.source.now) line.now) self.new.reply.text.items result }
    {
        match std::str::from_utf8(line) {
            Ok(text) => self.answer_text(text),
            Err(_) => Err(refused(self.alloc, b"a request is text in UTF-8")),
        }
    }
}

/// What is told of a line that is no request.
const FORM: &[u8] = b"a request is at NAME N, or local NAME YYYY-MM-DD hh:mm:ss.fffffffff";

impl Responder for PlainStream<'_> {
    ghost use Rattle.sefunjaro.specs.Sources.{table_in};
    ghost use Rattle.zone_command.specs.Plain.{plain_replies};

    ghost replies = { λ s. plain_replies (table_in s.source.now) };

    fn respond(&mut self, request: &[u8], output: &mut Vec<u8>) -> Result<bool, AllocError> {
        if self.answer_again(request, output)? {
            output.push(b'\n')?;
            return Ok(false);
        }
        match self.answer_line(request) {
            Ok(()) => {
                output.extend_from_slice(&self.reply.text)?;
                output.push(b'\n')?;
                Ok(false)
            }
            Err(Refusal::Why(words)) => {
                output.extend_from_slice(b"? ")?;
                output.extend_from_slice(&words)?;
                output.push(b'\n')?;
                Ok(true)
            }
            Err(Refusal::NoMemory) => Err(AllocError),
        }
    }

    fn refuse_long(&mut self, output: &mut Vec<u8>) -> Result<(), AllocError> {
        output.extend_from_slice(b"? a request of more than 4,096 bytes\n")?;
        Ok(())
    }
}
