//! The replies to requests, each on one line.
ghost use Rattle.std.specs.Prelude.{◌≡◌};
ghost use Rattle.civil_base.specs.DateTimes.{instant};
ghost use Rattle.zone_command.specs.{Answers.{told, IsAnswer, IsReply}, Replies.{at_fault}, Streams.{between, closing, opening, readings_due}};
ghost use Rattle.zone_texts.specs.Instants.{at_due};

use crate::answers::{told, told_between};
use crate::source::Refusal;
use civil_base::{OffsetDateTime, PlainDateTime};
use std::alloc::Global;
use zone_texts::{ReplyFault, ReplyZone, Style, add_at, add_converted};
use zone_words::AnswerForm;

/// What clocks show at an instant.
fn at_text<Z: ReplyZone>(
    alloc: Global,
    zone: &Z,
    style: &Style<'_>,
    at: &OffsetDateTime,
) -> Result<Vec<u8>, ReplyFault>
    ensures { IsReply (at_due style.now.form (Z.view zone.now) style.now.name.now (instant at.now)) result }
{
    let mut text = Vec::new(alloc);
    match add_at(&mut text, alloc, zone, style, at) {
        Ok(()) => Ok(text),
        Err(ReplyFault::OutOfYears) => Err(ReplyFault::OutOfYears),
        Err(ReplyFault::Untold) => Err(ReplyFault::Untold),
        Err(ReplyFault::Skipped) => Err(ReplyFault::Skipped),
        Err(ReplyFault::NoMemory) => Err(ReplyFault::NoMemory),
    }
}

/// What clocks show at an instant, or the words of the fault.
pub(crate) fn at_told<Z: ReplyZone>(
    alloc: Global,
    zone: &Z,
    style: &Style<'_>,
    at: &OffsetDateTime,
) -> Result<Vec<u8>, Refusal>
    ensures { IsAnswer (told style.now.name.now (at_due style.now.form (Z.view zone.now) style.now.name.now (instant at.now))) result }
{
    told(alloc, style.name, at_text(alloc, zone, style, at))
}

/// What stands before the readings of a local time.
fn opening(form: AnswerForm) -> &'static [u8]
    ensures { result.now ≡ opening form }
{
    match form {
        AnswerForm::Json => b"[",
        AnswerForm::People => b"",
        AnswerForm::Rfc3339 => b"",
        AnswerForm::Epoch => b"",
    }
}

/// What stands between them.
fn between(form: AnswerForm) -> &'static [u8]
    ensures { result.now ≡ between form }
{
    match form {
        AnswerForm::Json => b",",
        AnswerForm::People => b" | ",
        AnswerForm::Rfc3339 => b" | ",
        AnswerForm::Epoch => b" | ",
    }
}

/// What stands behind them.
fn closing(form: AnswerForm) -> &'static [u8]
    ensures { result.now ≡ closing form }
{
    match form {
        AnswerForm::Json => b"]",
        AnswerForm::People => b"",
        AnswerForm::Rfc3339 => b"",
        AnswerForm::Epoch => b"",
    }
}

/// All readings of a local time, or what skips it.
fn readings_text<F: ReplyZone, T: ReplyZone>(
    alloc: Global,
    from: &F,
    from_name: &str,
    to: &T,
    style: &Style<'_>,
    local: &PlainDateTime,
) -> Result<Vec<u8>, ReplyFault>
    ensures { IsReply (readings_due style.now.form (F.view from.now) from_name.now (T.view to.now) style.now.name.now local.now) result }
{
    let mut text = Vec::new(alloc);
    text.extend_from_slice(opening(style.form))?;
    let separator = between(style.form);
    match add_converted(
        &mut text, alloc, from, from_name, to, style, separator, local,
    ) {
        Ok(()) => {
            text.extend_from_slice(closing(style.form))?;
            Ok(text)
        }
        Err(ReplyFault::OutOfYears) => Err(ReplyFault::OutOfYears),
        Err(ReplyFault::Untold) => Err(ReplyFault::Untold),
        Err(ReplyFault::Skipped) => Err(ReplyFault::Skipped),
        Err(ReplyFault::NoMemory) => Err(ReplyFault::NoMemory),
    }
}

/// All readings of a local time in its own zone, or what skips it, or the words of the fault.
pub(crate) fn local_told<Z: ReplyZone>(
    alloc: Global,
    zone: &Z,
    style: &Style<'_>,
    local: &PlainDateTime,
) -> Result<Vec<u8>, Refusal>
    ensures { IsAnswer (told style.now.name.now (readings_due style.now.form (Z.view zone.now) style.now.name.now (Z.view zone.now) style.now.name.now local.now)) result }
{
    let text = readings_text(alloc, zone, style.name, zone, style, local);
    told(alloc, style.name, text)
}

/// The same in another.
pub(crate) fn convert_told<F: ReplyZone, T: ReplyZone>(
    alloc: Global,
    from: &F,
    from_name: &str,
    to: &T,
    style: &Style<'_>,
    local: &PlainDateTime,
) -> Result<Vec<u8>, Refusal>
    ensures { IsAnswer (told (at_fault (F.view from.now) from_name.now style.now.name.now local.now)
        (readings_due style.now.form (F.view from.now) from_name.now (T.view to.now) style.now.name.now local.now)) result }
{
    let text = readings_text(alloc, from, from_name, to, style, local);
    told_between(alloc, from, from_name, style.name, local, text)
}
