//! The reply to `list`.
ghost use Rattle.std.specs.Prelude.{◌≡◌, ◌++◌, ◌∷◌, IfErr, Ok, OnErr, OnOk};
ghost use Rattle.civil_base.specs.DateTimes.{instant, local_of, offset_of};
ghost use Rattle.zone_texts.specs.{Faults.{behind, each_due, IsFaultOf}, Forces.{force_shown}, Lists.{change_due, change_text, kind_between, list_due, second_from, side_text, sides_text}, Objects.{change_object_text}};

use crate::bytes::add_bytes;
use crate::fault::ReplyFault;
use crate::force::Force;
use crate::kind::Kind;
use crate::line::{Style, is_untold, local_of};
use crate::object::{Told, add_change_object};
use crate::skip::date_at;
use crate::view::ReplyZone;
use civil_base::{OffsetDateTime, PlainDateTime, UtcOffset};
use itoa::Buffer;
use std::alloc::{AllocError, Global};
use zone_words::{AnswerForm, add_epoch, add_offset, add_people, add_rfc3339};

/// Adds a space and a name.
#[tactic(auto, using(std::proofs::Common::append_assoc))]
fn add_name(into: &mut Vec<u8>, name: &str) -> Result<(), AllocError>
    ensures { OnOk result (into.new.items ≡ into.old.items ++ 32 ∷ name.now) }
{
    add_bytes(into, b" ")?;
    add_bytes(into, name.as_bytes())
}

/// Adds what clocks show by what is in force on one side of a change.
#[tactic(auto, using(std::proofs::Common::append_assoc, crate::proofs::LocalLemmas::local_is))]
fn add_side(
    into: &mut Vec<u8>,
    form: AnswerForm,
    date: &OffsetDateTime,
    force: &Force,
) -> Result<(), AllocError>
    requires { offset_of date.now ≡ force.now.offset }
    ensures { OnOk result (into.new.items ≡ into.old.items ++ side_text form (instant date.now) (force_shown force.now)) }
{
    match form {
        AnswerForm::People => Ok(add_people(
            into,
            &local_of(date),
            force.offset,
            force.name.as_str(),
        )?),
        AnswerForm::Rfc3339 => {
            add_rfc3339(into, &local_of(date), force.offset)?;
            add_name(into, force.name.as_str())
        }
        AnswerForm::Epoch => {
            add_offset(into, force.offset)?;
            add_name(into, force.name.as_str())
        }
        AnswerForm::Json => Ok(()),
    }
}

/// Adds the line of a change, but for its end: what was in force up to it, and what is from it on, each with the date by it.
#[tactic(auto, using(std::proofs::Common::append_assoc), unfolding(crate::specs::Lists::sides_text))]
fn add_sides(
    into: &mut Vec<u8>,
    form: AnswerForm,
    before: &OffsetDateTime,
    old: &Force,
    after: &OffsetDateTime,
    new: &Force,
) -> Result<(), AllocError>
    requires at { instant before.now ≡ instant after.now }
    requires old { offset_of before.now ≡ old.now.offset }
    requires new { offset_of after.now ≡ new.now.offset }
    ensures { OnOk result (into.new.items ≡ into.old.items ++ sides_text form (instant after.now) (force_shown old.now) (force_shown new.now)) }
{
    add_epoch(into, after)?;
    add_bytes(into, b": ")?;
    add_side(into, form, before, old)?;
    add_bytes(into, b" to ")?;
    add_side(into, form, after, new)?;
    add_bytes(into, b", saving ")?;
    add_bytes(into, Buffer::new().format(new.saving).as_bytes())
}

/// What a change from one offset to another does to local times: `Gap` where clocks skip some, `Fold` where they read some twice, else `One`.
pub fn kind_between(before: UtcOffset, after: UtcOffset) -> Kind
    ensures { result ≡ kind_between before after }
{
    let before = before.whole_seconds();
    let after = after.whole_seconds();
    if before < after {
        Kind::Gap
    } else if after < before {
        Kind::Fold
    } else {
        Kind::One
    }
}

/// Adds the object of a change.
fn add_listed(
    into: &mut Vec<u8>,
    name: &str,
    before: UtcOffset,
    after: &OffsetDateTime,
    force: &Force,
) -> Result<(), AllocError>
    ensures { OnOk result (into.new.items ≡ into.old.items
        ++ change_object_text name.now (instant after.now) (local_of after.now) (offset_of after.now) (force_shown force.now) (kind_between before (offset_of after.now)) before) }
{
    let told = Told {
        name,
        at: after,
        local: &local_of(after),
        force,
        kind: kind_between(before, after.offset()),
    };
    add_change_object(into, &told, before)
}

/// Adds a change: what was in force up to it, and what is from it on, each with the date by it.
fn add_change(
    into: &mut Vec<u8>,
    style: &Style<'_>,
    before: &OffsetDateTime,
    old: &Force,
    after: &OffsetDateTime,
    new: &Force,
) -> Result<(), AllocError>
    requires at { instant before.now ≡ instant after.now }
    requires old { offset_of before.now ≡ old.now.offset }
    requires new { offset_of after.now ≡ new.now.offset }
    ensures { OnOk result (into.new.items ≡ into.old.items ++ change_text style.now.form style.now.name.now (instant after.now) (force_shown old.now) (force_shown new.now)) }
{
    match style.form {
        AnswerForm::Json => add_listed(into, style.name, old.offset, after, new),
        AnswerForm::People => add_sides(into, style.form, before, old, after, new),
        AnswerForm::Rfc3339 => add_sides(into, style.form, before, old, after, new),
        AnswerForm::Epoch => add_sides(into, style.form, before, old, after, new),
    }
}

/// Adds the line of the change at a second, as [`add_list`] has it.
///
/// # Errors
///
/// `OutOfYears` exactly where a date of it lies outside the years -9999 to 9999; `NoMemory`. The text is as before then.
#[tactic(auto, unfolding(crate::specs::Lists::change_due))]
pub fn add_change_line<Z: ReplyZone>(
    into: &mut Vec<u8>,
    alloc: Global,
    zone: &Z,
    style: &Style<'_>,
    second: i64,
) -> Result<(), ReplyFault>
    ensures ok { OnOk result (Ok into.new.items ≡ behind into.old.items (change_due style.now.form (Z.view zone.now) style.now.name.now second)) }
    ensures err { OnErr result (into.new.items ≡ into.old.items) }
    ensures cause { IfErr result (IsFaultOf (change_due style.now.form (Z.view zone.now) style.now.name.now second)) }
{
    let old = zone.force_before(alloc, second)?;
    let new = zone.force_at(alloc, second)?;
    let Some(before) = date_at(second, old.offset) else {
        return Err(ReplyFault::OutOfYears);
    };
    let Some(after) = date_at(second, new.offset) else {
        return Err(ReplyFault::OutOfYears);
    };
    let mut line = Vec::new(alloc);
    add_change(&mut line, style, &before, &old, &after, &new)?;
    line.extend_from_slice(b"\n")?;
    into.extend_from_slice(&line)?;
    Ok(())
}

/// Adds the lines of some changes.
fn add_lines<Z: ReplyZone>(
    into: &mut Vec<u8>,
    alloc: Global,
    zone: &Z,
    style: &Style<'_>,
    changes: &[i64],
) -> Result<(), ReplyFault>
    ensures ok { OnOk result (Ok into.new.items ≡ behind into.old.items (each_due (change_due style.now.form (Z.view zone.now) style.now.name.now) changes.now)) }
    ensures err { IfErr result (IsFaultOf (each_due (change_due style.now.form (Z.view zone.now) style.now.name.now) changes.now)) }
{
    for change in changes {
        add_change_line(into, alloc, zone, style, *change)?;
    }
    Ok(())
}

/// The first second at an instant or after it.
fn second_from(at: &OffsetDateTime) -> i64
    ensures { result ≡ second_from (instant at.now) }
{
    (at.unix_timestamp_nanos() + 999_999_999).div_euclid(1_000_000_000) as i64
}

/// Adds a line for each change from an instant on and before another, which are told as date-times at UTC: the instant, what clocks show up
/// to it and from it on, and the saving from it on.
///
/// # Errors
///
/// `Untold` exactly where the second instant lies past the zone's last year by UTC; then `OutOfYears` exactly where a date of a change
/// lies outside the years; `NoMemory`. The text is as before then.
#[tactic(auto, unfolding(crate::specs::Lists::list_due))]
pub fn add_list<Z: ReplyZone>(
    into: &mut Vec<u8>,
    alloc: Global,
    zone: &Z,
    style: &Style<'_>,
    from: &PlainDateTime,
    to: &PlainDateTime,
) -> Result<(), ReplyFault>
    ensures ok { OnOk result (Ok into.new.items ≡ behind into.old.items (list_due style.now.form (Z.view zone.now) style.now.name.now from.now to.now)) }
    ensures err { OnErr result (into.new.items ≡ into.old.items) }
    ensures cause { IfErr result (IsFaultOf (list_due style.now.form (Z.view zone.now) style.now.name.now from.now to.now)) }
{
    if is_untold(zone, to) {
        return Err(ReplyFault::Untold);
    }
    let first = second_from(&from.assume_utc());
    let changes = zone.changes(alloc, first, second_from(&to.assume_utc()))?;
    let mut text = Vec::new(alloc);
    add_lines(&mut text, alloc, zone, style, &changes)?;
    into.extend_from_slice(&text)?;
    Ok(())
}
