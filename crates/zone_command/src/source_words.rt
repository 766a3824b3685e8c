//! What is told of faults, in words.
ghost use Rattle.std.specs.Prelude.{◌≡◌, IfOk, codes, false};
ghost use Rattle.zone_command.specs.{Causes.{cause_words, form_words, join_words, kind_words, line_words, of_text}, Sources.{fault_words}, Views.{schedule_words}, Wholes.{changes_words, file_words, tail_words, why_words}};

use itoa::Buffer;
use sefunjaro::{AnySourceFault, EverFileFault, EverTailFault, SourceError, Why};
use std::alloc::{AllocError, Global};
use zone_plain_lines::PlainCause;
use zone_source::BuildKind;
use zone_spans::SpanFault;
use zone_table::FaultKind;
use zone_tzif::FileFault;
use zone_tzif_core::WriteFault;

/// What is told of a text that is no source.
pub(crate) fn fault_words(alloc: Global, fault: &AnySourceFault) -> Result<Vec<u8>, AllocError>
    ensures { IfOk result (λ words. words.items ≡ fault_words fault.now) }
{
    match fault {
        AnySourceFault::TooLong => b"this source has more than 16,777,216 bytes".to_vec(alloc),
        AnySourceFault::Line(number, cause) => {
            line_words(alloc, *number, false, cause_words(*cause))
        }
        AnySourceFault::PlainTooLong =>
            b"this source has more than 16,777,216 bytes in plain form".to_vec(alloc),
        AnySourceFault::Plain(error) => form_words(alloc, error),
        AnySourceFault::NoMemory => b"out of memory".to_vec(alloc),
    }
}

/// What is told between the number of a line of a source, or of its plain form, and why it is refused.
fn of_text(in_form: bool) -> &'static [u8]
    ensures { result.now ≡ of_text in_form }
{
    if in_form {
        b" of this source in plain form can't be read: "
    } else {
        b" of this source can't be read: "
    }
}

/// What is told of a source whose plain form is refused.
fn form_words(alloc: Global, error: &SourceError) -> Result<Vec<u8>, AllocError>
    ensures { IfOk result (λ words. words.items ≡ form_words error.now) }
{
    match error {
        SourceError::NotText(number) => {
            line_words(alloc, *number, true, cause_words(PlainCause::NotText))
        }
        SourceError::Line(number, error) => match error.kind() {
            Some(kind) => line_words(alloc, *number, true, kind_words(kind)),
            None => b"out of memory".to_vec(alloc),
        },
        SourceError::Build(number, kind) => line_words(alloc, *number, true, join_words(*kind)),
        SourceError::NoMemory => b"out of memory".to_vec(alloc),
    }
}

/// What is told of a line of a source, or of its plain form, by its number, and why.
#[tactic(auto, using(std::proofs::Common::append_assoc), unfolding(crate::specs::Causes::line_words))]
fn line_words(
    alloc: Global,
    number: usize,
    in_form: bool,
    why: &[u8],
) -> Result<Vec<u8>, AllocError>
    ensures { IfOk result (λ words. words.items ≡ line_words number in_form why.now) }
{
    let mut words = b"line ".to_vec(alloc)?;
    words.extend_from_slice(Buffer::new().format(number).as_bytes())?;
    words.extend_from_slice(of_text(in_form))?;
    words.extend_from_slice(why)?;
    Ok(words)
}

/// What is told of a source that was cut short within the line of that number.
pub(crate) fn cut_words(alloc: Global, number: usize) -> Result<Vec<u8>, AllocError>
    ensures { IfOk result (λ words. words.items ≡ line_words number false (codes "the source ends in the middle of it")) }
{
    line_words(alloc, number, false, b"the source ends in the middle of it")
}

/// Why a line has no plain form.
fn cause_words(cause: PlainCause) -> &'static [u8]
    ensures { result.now ≡ cause_words cause }
{
    match cause {
        PlainCause::NotText => b"it isn't text in UTF-8",
        PlainCause::Quotes => b"quotes are left open, or around nothing",
        PlainCause::LineType => b"its first word is none of Rule, Zone and Link",
        PlainCause::FieldCount => b"it has too few words, or too many",
        PlainCause::RulesetName => b"no rules have such a name",
        PlainCause::Year => b"a year of it is none",
        PlainCause::YearOrder => b"its last year comes before its first",
        PlainCause::Type => b"its TYPE isn't -",
        PlainCause::Month => b"a month of it is none, or two",
        PlainCause::Day => b"a day of it is none of its month",
        PlainCause::Time => b"a time of it is none",
        PlainCause::Saving => b"the letter behind its saving changes which time is standard",
        PlainCause::Format => b"its FORMAT is empty, or has a % that can't be filled",
        PlainCause::Unsayable => b"it would be read as something else than it means",
        PlainCause::Continuation => b"a line that goes on with it is missing",
        PlainCause::UnknownRuleset =>
            b"its RULES are no amount of time, and no rules have that name",
        PlainCause::DuplicateZone => b"an earlier zone has its name",
        PlainCause::LinkIsZone => b"a zone has the name of this link",
        PlainCause::DuplicateLink => b"an earlier link has its name and leads elsewhere",
        PlainCause::Target => b"this link leads to no zone",
        PlainCause::Name => b"no zone has such a name",
    }
}

/// Why a line in plain form is refused by itself.
fn kind_words(kind: FaultKind) -> &'static [u8]
    ensures { result.now ≡ kind_words kind }
{
    match kind {
        FaultKind::FailedYearParse => b"a year of it is none",
        FaultKind::FailedMonthParse => b"a month of it is none",
        FaultKind::FailedWeekdayParse => b"a weekday of it is none",
        FaultKind::InvalidLineType => b"it is no rule, zone, link or line that goes on with one",
        FaultKind::TypeColumnContainedNonHyphen => b"its TYPE isn't -",
        FaultKind::CouldNotParseSaving => b"a saving of it is none",
        FaultKind::InvalidDaySpec => b"a day of it is none",
        FaultKind::InvalidTimeSpecAndType => b"a time of it is none",
        FaultKind::NonWallClockInTimeSpec => b"a time of it is none by the wall's clock",
    }
}

/// Why a line in plain form is refused behind those before it.
fn join_words(kind: BuildKind) -> &'static [u8]
    ensures { result.now ≡ join_words kind }
{
    match kind {
        BuildKind::SurpriseContinuationLine => b"no zone stands before it",
        BuildKind::UnknownRuleset => b"no rules before it have the name that it is under",
        BuildKind::DuplicateLink => b"an earlier link has its name",
        BuildKind::DuplicateZone => b"an earlier zone has its name",
    }
}

/// What is told of a zone without a schedule.
pub(crate) fn schedule_words(fault: SpanFault) -> &'static [u8]
    ensures { result.now ≡ schedule_words fault }
{
    match fault {
        SpanFault::UnknownRuleset => b"a line of this zone names rules that aren't there",
        SpanFault::MissingUntil => b"a line of this zone has no end, and another follows",
        SpanFault::YearRange => b"a line of this zone ends in no year from 1 to 9999",
        SpanFault::RuleYears => b"a rule of this zone begins in no year",
        SpanFault::DayRange => b"a day of this zone's lines lies in another year than theirs",
        SpanFault::NoStandardSpan => b"no offset is known before this zone's first change",
        SpanFault::NoMemory => b"out of memory",
    }
}

/// Why no string carries a zone on.
pub(crate) fn tail_words(fault: EverTailFault) -> &'static [u8]
    ensures { result.now ≡ tail_words fault }
{
    match fault {
        EverTailFault::Saving =>
            b"no string says this zone for ever: it has daylight saving time for good",
        EverTailFault::Shape =>
            b"no string says this zone for ever: a year has other changes than one to daylight saving time and one back",
        EverTailFault::OffsetRange =>
            b"no string says this zone for ever: it has an offset past 24:59:59",
        EverTailFault::Name =>
            b"no string says this zone for ever: an abbreviation isn't three or more letters, digits, + or -",
        EverTailFault::NoRule =>
            b"no string says this zone for ever: no days of its rules come again each year",
        EverTailFault::NoMemory => b"out of memory",
    }
}

/// Why changes have no file.
fn changes_words(fault: FileFault) -> &'static [u8]
    ensures { result.now ≡ changes_words fault }
{
    match fault {
        FileFault::Times => b"this zone has no file: its changes don't rise, or are too many",
        FileFault::Types => b"this zone has no file: it has more than 256 kinds of time",
        FileFault::Names => b"this zone has no file: its abbreviations don't fit into one",
        FileFault::NoMemory => b"out of memory",
    }
}

/// Why a zone has no file.
pub(crate) fn file_words(fault: EverFileFault) -> &'static [u8]
    ensures { result.now ≡ file_words fault }
{
    match fault {
        EverFileFault::Footer(fault) => tail_words(fault),
        EverFileFault::File(fault) => changes_words(fault),
    }
}

/// Why a name has no entry in the tree.
pub(crate) fn why_words(why: Why) -> &'static [u8]
    ensures { result.now ≡ why_words why }
{
    match why {
        Why::Schedule(fault) => schedule_words(fault),
        Why::OffsetRange => b"this zone has an offset of 26 hours or more",
        Why::RulesEnd =>
            b"the rules of this zone end, or aren't found to come again, so it isn't told for ever",
        Why::String(fault) => tail_words(fault),
        Why::Format => b"a % is left in an abbreviation of this zone",
        Why::File(WriteFault::Times) => changes_words(FileFault::Times),
        Why::File(WriteFault::Types) => changes_words(FileFault::Types),
        Why::File(WriteFault::Names) => changes_words(FileFault::Names),
        Why::File(WriteFault::Offset) =>
            b"this zone has no file: it has an offset of 26 hours or more",
        Why::File(WriteFault::Footer) => b"this zone has no file: its string doesn't fit into one",
        Why::File(WriteFault::NoMemory) => b"out of memory",
        Why::Link => b"this link leads to no zone",
        Why::Name => b"an archive has no place for this name",
        Why::Size => b"the file of this zone is too long for an archive",
    }
}
