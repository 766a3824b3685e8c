//! An instant as clocks of a zone show it, in each form.
ghost use Rattle.std.specs.Prelude.{◌≡◌, ◌++◌, IfErr, IfOk, Ok, OnErr, OnOk};
ghost use Rattle.civil_base.specs.{DateTimes.{instant, local_of, offset_of}, Instants.{seconds_of}};
ghost use Rattle.zone_texts.specs.{Faults.{behind, IsFaultOf}, Instants.{instant_text, is_untold, kind_at, shown_due, IsKindFor}, Objects.{object_text}};
ghost use Rattle.zone_words.specs.Written.{people_text};

use crate::fault::ReplyFault;
use crate::kind::Kind;
use crate::object::{Told, add_object};
use crate::view::ReplyZone;
use civil_base::{OffsetDateTime, PlainDateTime};
use std::alloc::{AllocError, Global};
use zone_words::{AnswerForm, add_epoch, add_people, add_rfc3339};

/// How replies about a zone are written: under which name of it, and in which form.
#[derive(Clone, Copy, Debug)]
pub struct Style<'a> {
    /// The zone's name, as it was asked for.
    pub name: &'a str,
    /// The form.
    pub form: AnswerForm,
}

/// The date and the time of day of a date-time, as clocks at its offset show them.
pub fn local_of(date: &OffsetDateTime) -> PlainDateTime
    ensures { result ≡ local_of date.now }
{
    PlainDateTime::new(date.date(), date.time())
}

/// Adds an instant at the offset in force.
pub(crate) fn add_instant<Z: ReplyZone>(
    into: &mut Vec<u8>,
    alloc: Global,
    zone: &Z,
    style: &Style<'_>,
    kind: Kind,
    date: &OffsetDateTime,
) -> Result<(), AllocError>
    ensures { OnOk result (into.new.items ≡ into.old.items ++ instant_text style.now.form (Z.view zone.now) style.now.name.now kind (instant date.now) (offset_of date.now)) }
{
    let local = local_of(date);
    match style.form {
        AnswerForm::People => add_named(into, alloc, zone, date, &local),
        AnswerForm::Rfc3339 => Ok(add_rfc3339(into, &local, date.offset())?),
        AnswerForm::Epoch => Ok(add_epoch(into, date)?),
        AnswerForm::Json => add_whole(into, alloc, zone, style.name, kind, date, &local),
    }
}

/// Adds an instant for people, with the abbreviation in force.
fn add_named<Z: ReplyZone>(
    into: &mut Vec<u8>,
    alloc: Global,
    zone: &Z,
    date: &OffsetDateTime,
    local: &PlainDateTime,
) -> Result<(), AllocError>
    ensures { OnOk result (into.new.items ≡ into.old.items
        ++ people_text local.now (offset_of date.now) ((Z.view zone.now).force (seconds_of (instant date.now))).name) }
{
    let force = zone.force_at(alloc, date.unix_timestamp())?;
    add_people(into, local, date.offset(), force.name.as_str())
}

/// Adds an instant as an object.
fn add_whole<Z: ReplyZone>(
    into: &mut Vec<u8>,
    alloc: Global,
    zone: &Z,
    name: &str,
    kind: Kind,
    date: &OffsetDateTime,
    local: &PlainDateTime,
) -> Result<(), AllocError>
    ensures { OnOk result (into.new.items ≡ into.old.items
        ++ object_text name.now (instant date.now) local.now (offset_of date.now) ((Z.view zone.now).force (seconds_of (instant date.now))) kind) }
{
    let force = zone.force_at(alloc, date.unix_timestamp())?;
    let told = Told {
        name,
        at: date,
        local,
        force: &force,
        kind,
    };
    add_object(into, &told)
}

/// Whether a local time lies past the last year that a zone is told for.
pub fn is_untold<Z: ReplyZone>(zone: &Z, local: &PlainDateTime) -> bool
    ensures { result ≡ is_untold (Z.view zone.now) local.now }
{
    zone.last_year() < local.year()
}

/// Adds an instant as clocks of a zone show it.
#[tactic(auto, unfolding(crate::specs::Instants::shown_due))]
pub(crate) fn add_shown<Z: ReplyZone>(
    into: &mut Vec<u8>,
    alloc: Global,
    zone: &Z,
    style: &Style<'_>,
    kind: Kind,
    at: &OffsetDateTime,
) -> Result<(), ReplyFault>
    ensures ok { OnOk result (Ok into.new.items ≡ behind into.old.items (shown_due style.now.form (Z.view zone.now) style.now.name.now kind (instant at.now))) }
    ensures err { IfErr result (IsFaultOf (shown_due style.now.form (Z.view zone.now) style.now.name.now kind (instant at.now))) }
{
    let Some(date) = zone.shown_at(at) else {
        return Err(ReplyFault::OutOfYears);
    };
    if is_untold(zone, &local_of(&date)) {
        return Err(ReplyFault::Untold);
    }
    add_instant(into, alloc, zone, style, kind, &date)?;
    Ok(())
}

/// The kind of a local time, where the form tells it.
pub(crate) fn kind_for<Z: ReplyZone>(
    alloc: Global,
    zone: &Z,
    form: AnswerForm,
    local: &PlainDateTime,
) -> Result<Kind, AllocError>
    ensures { IfOk result (λ kind. IsKindFor form kind (kind_at (Z.view zone.now) local.now)) }
{
    match form {
        AnswerForm::People => Ok(Kind::One),
        AnswerForm::Rfc3339 => Ok(Kind::One),
        AnswerForm::Epoch => Ok(Kind::One),
        AnswerForm::Json => {
            let found = zone.instants(alloc, local)?;
            Ok(Kind::of_count(found.len()))
        }
    }
}
