//! The change by which clocks skip a local time.
ghost use Rattle.std.specs.Prelude.{◌≡◌, ◌++◌, codes, IfErr, IfOk, IfSome, Ok, OnOk, find, is_some};
ghost use Rattle.civil_base.specs.{DateTimes.{instant, offset_of}, Instants.{local_at, nanos_of}};
ghost use Rattle.zone_texts.specs.{Faults.{behind, IsFaultOf}, Instants.{instant_text}, Objects.{gap_object_text}, declared.kind.Kind.TheVariants.{Gap}, Skips.{after_of, before_of, from_to_text, gap_due, has_dates, none_text, skipped_due, skipped_text, skipping, skips}};
ghost use Rattle.zone_words.specs.declared.answer_form.AnswerForm.TheVariants.{People};

use crate::bytes::add_bytes;
use crate::fault::ReplyFault;
use crate::kind::Kind;
use crate::line::{Style, add_instant};
use crate::object::{Told, add_gap_object};
use crate::view::ReplyZone;
use civil_base::{OffsetDateTime, PlainDateTime, UtcOffset};
use std::alloc::{AllocError, Global};
use zone_words::{AnswerForm, add_offset};

/// The offset in force just before a second.
pub(crate) fn before_of<Z: ReplyZone>(zone: &Z, second: i64) -> UtcOffset
    ensures { result ≡ before_of (Z.view zone.now) second }
{
    zone.offset_before(second)
}

/// The offset in force from a second on.
pub(crate) fn after_of<Z: ReplyZone>(zone: &Z, second: i64) -> UtcOffset
    ensures { result ≡ after_of (Z.view zone.now) second }
{
    zone.offset_at(second)
}

/// The nanoseconds of a local time.
fn nanos_of(local: &PlainDateTime) -> i128
    ensures { result ≡ local.now }
{
    local.assume_utc().unix_timestamp_nanos()
}

/// What clocks at that offset show at a second, in nanoseconds.
fn clock_at(second: i64, offset: UtcOffset) -> i128
    ensures { result ≡ local_at (nanos_of second) offset }
{
    (i128::from(second) + i128::from(offset.whole_seconds())) * 1_000_000_000
}

/// Whether the change at a second skips a local time.
fn skips<Z: ReplyZone>(zone: &Z, local: &PlainDateTime, second: i64) -> bool
    ensures { result ≡ skips (Z.view zone.now) local.now second }
{
    let nanos = nanos_of(local);
    clock_at(second, before_of(zone, second)) <= nanos
        && nanos < clock_at(second, after_of(zone, second))
}

/// The first of some changes that skips a local time.
fn first_skipping<Z: ReplyZone>(zone: &Z, local: &PlainDateTime, changes: &[i64]) -> Option<i64>
    ensures { result ≡ find (skips (Z.view zone.now) local.now) changes.now }
{
    changes
        .iter()
        .copied()
        .find(|second| skips(zone, local, *second))
}

/// Of a zone's changes within 26 hours the first that skips a local time: the seconds of it from 1970-01-01 00:00:00 UTC. There is none
/// exactly where no change does.
///
/// # Errors
///
/// Want of memory alone.
#[tactic(auto, unfolding(crate::specs::Skips::skipping))]
pub fn skipping<Z: ReplyZone>(
    alloc: Global,
    zone: &Z,
    local: &PlainDateTime,
) -> Result<Option<i64>, AllocError>
    ensures { IfOk result (λ found. found ≡ skipping (Z.view zone.now) local.now) }
{
    let second = local.assume_utc().unix_timestamp();
    let changes = zone.changes(alloc, second - 93_600, second + 93_601)?;
    Ok(first_skipping(zone, local, &changes))
}

/// A second at an offset, if its dates lie in the years.
pub(crate) fn date_at(second: i64, offset: UtcOffset) -> Option<OffsetDateTime>
    ensures dates { is_some result ≡ has_dates second offset }
    ensures instant { IfSome result (λ date. instant date ≡ nanos_of second) }
    ensures offset { IfSome result (λ date. offset_of date ≡ offset) }
{
    match OffsetDateTime::from_unix_timestamp(second) {
        Ok(at_utc) => at_utc.to_offset(offset),
        Err(_) => None,
    }
}

/// Adds the offsets before and after a change.
#[tactic(auto, using(std::proofs::Common::append_assoc), unfolding(crate::specs::Skips::from_to_text))]
fn add_from_to<Z: ReplyZone>(into: &mut Vec<u8>, zone: &Z, second: i64) -> Result<(), AllocError>
    ensures { OnOk result (into.new.items ≡ into.old.items ++ from_to_text (Z.view zone.now) second) }
{
    add_bytes(into, b", from ")?;
    add_offset(into, before_of(zone, second))?;
    add_bytes(into, b" to ")?;
    add_offset(into, after_of(zone, second))
}

/// Adds a change that skips a local time, at its date: as an object, or in words for people.
fn add_skipped<Z: ReplyZone>(
    into: &mut Vec<u8>,
    alloc: Global,
    zone: &Z,
    is_object: bool,
    name: &str,
    local: &PlainDateTime,
    second: i64,
    date: &OffsetDateTime,
) -> Result<(), AllocError>
    requires instant { instant date.now ≡ nanos_of second }
    requires offset { offset_of date.now ≡ after_of (Z.view zone.now) second }
    ensures { OnOk result (into.new.items ≡ into.old.items ++ skipped_text is_object (Z.view zone.now) name.now local.now second) }
{
    if is_object {
        add_skip_object(into, alloc, zone, name, local, second, date)
    } else {
        add_skip_line(into, alloc, zone, name, second, date)
    }
}

/// Adds the line of a change that skips a local time.
#[tactic(auto, using(std::proofs::Common::append_assoc))]
fn add_skip_line<Z: ReplyZone>(
    into: &mut Vec<u8>,
    alloc: Global,
    zone: &Z,
    name: &str,
    second: i64,
    date: &OffsetDateTime,
) -> Result<(), AllocError>
    ensures { OnOk result (into.new.items ≡ into.old.items
        ++ (codes "none: skipped at " ++ instant_text People (Z.view zone.now) name.now Gap (instant date.now) (offset_of date.now)
        ++ from_to_text (Z.view zone.now) second)) }
{
    let style = Style {
        name,
        form: AnswerForm::People,
    };
    add_bytes(into, b"none: skipped at ")?;
    add_instant(into, alloc, zone, &style, Kind::Gap, date)?;
    add_from_to(into, zone, second)
}

/// Adds the object of a change that skips a local time.
fn add_skip_object<Z: ReplyZone>(
    into: &mut Vec<u8>,
    alloc: Global,
    zone: &Z,
    name: &str,
    local: &PlainDateTime,
    second: i64,
    date: &OffsetDateTime,
) -> Result<(), AllocError>
    ensures { OnOk result (into.new.items ≡ into.old.items
        ++ gap_object_text name.now (instant date.now) local.now (before_of (Z.view zone.now) second) (offset_of date.now) ((Z.view zone.now).force second)) }
{
    let force = zone.force_at(alloc, second)?;
    let told = Told {
        name,
        at: date,
        local,
        force: &force,
        kind: Kind::Gap,
    };
    add_gap_object(into, &told, before_of(zone, second))
}

/// That no change skips a local time.
fn none_text(is_object: bool) -> &'static [u8]
    ensures { result.now ≡ none_text is_object }
{
    if is_object { b"null" } else { b"none" }
}

/// Adds what skips a local time: as an object, or in words for people.
fn add_skip<Z: ReplyZone>(
    into: &mut Vec<u8>,
    alloc: Global,
    zone: &Z,
    is_object: bool,
    name: &str,
    local: &PlainDateTime,
) -> Result<(), ReplyFault>
    ensures ok { OnOk result (Ok into.new.items ≡ behind into.old.items (skipped_due is_object (Z.view zone.now) name.now local.now (skipping (Z.view zone.now) local.now))) }
    ensures err { IfErr result (IsFaultOf (skipped_due is_object (Z.view zone.now) name.now local.now (skipping (Z.view zone.now) local.now))) }
{
    let Some(second) = skipping(alloc, zone, local)? else {
        add_bytes(into, none_text(is_object))?;
        return Ok(());
    };
    let Some(date) = date_at(second, after_of(zone, second)) else {
        return Err(ReplyFault::OutOfYears);
    };
    add_skipped(into, alloc, zone, is_object, name, local, second, &date)?;
    Ok(())
}

/// Adds what skips a local time, in a form that has a text for it.
pub(crate) fn add_gap<Z: ReplyZone>(
    into: &mut Vec<u8>,
    alloc: Global,
    zone: &Z,
    style: &Style<'_>,
    local: &PlainDateTime,
) -> Result<(), ReplyFault>
    ensures ok { OnOk result (Ok into.new.items ≡ behind into.old.items (gap_due style.now.form (Z.view zone.now) style.now.name.now local.now)) }
    ensures err { IfErr result (IsFaultOf (gap_due style.now.form (Z.view zone.now) style.now.name.now local.now)) }
{
    match style.form {
        AnswerForm::People => add_skip(into, alloc, zone, false, style.name, local),
        AnswerForm::Rfc3339 => Err(ReplyFault::Skipped),
        AnswerForm::Epoch => Err(ReplyFault::Skipped),
        AnswerForm::Json => add_skip(into, alloc, zone, true, style.name, local),
    }
}
