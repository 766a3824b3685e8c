//! The replies to `at`, `local` and `convert`.
ghost use Rattle.std.specs.Prelude.{◌≡◌, ◌<◌, map, length, IfErr, Ok, OnErr, OnOk};
ghost use Rattle.civil_base.specs.DateTimes.{instant};
ghost use Rattle.zone_texts.specs.{Faults.{behind, IsFaultOf}, Instants.{at_due, line_due, shown_due}, Readings.{after_each, convert_due, first_due, local_due}};

use crate::bytes::add_bytes;
use crate::fault::ReplyFault;
use crate::kind::Kind;
use crate::line::{Style, add_shown, is_untold, kind_for, local_of};
use crate::skip::add_gap;
use crate::view::ReplyZone;
use civil_base::{OffsetDateTime, PlainDateTime};
use std::alloc::Global;

/// Adds what clocks of a zone show at an instant, with what is in force there.
///
/// # Errors
///
/// `OutOfYears` exactly where the local date lies outside the years -9999 to 9999; then `Untold` exactly where it lies past the zone's
/// last year; `NoMemory`. The text is as before then.
#[tactic(auto, unfolding(crate::specs::Instants::shown_due))]
pub fn add_at<Z: ReplyZone>(
    into: &mut Vec<u8>,
    alloc: Global,
    zone: &Z,
    style: &Style<'_>,
    at: &OffsetDateTime,
) -> Result<(), ReplyFault>
    ensures ok { OnOk result (Ok into.new.items ≡ behind into.old.items (at_due style.now.form (Z.view zone.now) style.now.name.now (instant at.now))) }
    ensures err { OnErr result (into.new.items ≡ into.old.items) }
    ensures cause { IfErr result (IsFaultOf (at_due style.now.form (Z.view zone.now) style.now.name.now (instant at.now))) }
{
    let Some(date) = zone.shown_at(at) else {
        return Err(ReplyFault::OutOfYears);
    };
    let kind = kind_for(alloc, zone, style.form, &local_of(&date))?;
    let mut text = Vec::new(alloc);
    add_shown(&mut text, alloc, zone, style, kind, at)?;
    into.extend_from_slice(&text)?;
    Ok(())
}

/// Adds the line of an instant, as [`add_at`] writes it.
///
/// # Errors
///
/// As [`add_at`]. The text is as before then.
pub fn add_at_line<Z: ReplyZone>(
    into: &mut Vec<u8>,
    alloc: Global,
    zone: &Z,
    style: &Style<'_>,
    at: &OffsetDateTime,
) -> Result<(), ReplyFault>
    ensures ok { OnOk result (Ok into.new.items ≡ behind into.old.items (line_due style.now.form (Z.view zone.now) style.now.name.now (instant at.now))) }
    ensures err { OnErr result (into.new.items ≡ into.old.items) }
    ensures cause { IfErr result (IsFaultOf (line_due style.now.form (Z.view zone.now) style.now.name.now (instant at.now))) }
{
    let mut line = Vec::new(alloc);
    add_at(&mut line, alloc, zone, style, at)?;
    line.extend_from_slice(b"\n")?;
    into.extend_from_slice(&line)?;
    Ok(())
}

/// Adds some instants as clocks of a zone show them, each after a separator.
fn add_after<Z: ReplyZone>(
    into: &mut Vec<u8>,
    alloc: Global,
    zone: &Z,
    style: &Style<'_>,
    kind: Kind,
    separator: &[u8],
    dates: &[OffsetDateTime],
) -> Result<(), ReplyFault>
    ensures ok { OnOk result (Ok into.new.items ≡ behind into.old.items (after_each style.now.form (Z.view zone.now) style.now.name.now kind separator.now (map instant dates.now))) }
    ensures err { IfErr result (IsFaultOf (after_each style.now.form (Z.view zone.now) style.now.name.now kind separator.now (map instant dates.now))) }
{
    for date in dates {
        add_behind(into, alloc, zone, style, kind, separator, date)?;
    }
    Ok(())
}

/// Adds a separator and an instant as clocks of a zone show it.
fn add_behind<Z: ReplyZone>(
    into: &mut Vec<u8>,
    alloc: Global,
    zone: &Z,
    style: &Style<'_>,
    kind: Kind,
    separator: &[u8],
    date: &OffsetDateTime,
) -> Result<(), ReplyFault>
    ensures ok { OnOk result (Ok into.new.items ≡ behind into.old.items (behind separator.now (shown_due style.now.form (Z.view zone.now) style.now.name.now kind (instant date.now)))) }
    ensures err { IfErr result (IsFaultOf (behind separator.now (shown_due style.now.form (Z.view zone.now) style.now.name.now kind (instant date.now)))) }
{
    add_bytes(into, separator)?;
    add_shown(into, alloc, zone, style, kind, date)
}

/// Adds an instant as clocks of a zone show it, and others, each after a separator.
fn add_first<Z: ReplyZone>(
    into: &mut Vec<u8>,
    alloc: Global,
    zone: &Z,
    style: &Style<'_>,
    separator: &[u8],
    first: &OffsetDateTime,
    others: &[OffsetDateTime],
) -> Result<(), ReplyFault>
    requires { length others.now < 18446744073709551615 }
    ensures ok { OnOk result (Ok into.new.items ≡ behind into.old.items (first_due style.now.form (Z.view zone.now) style.now.name.now separator.now (instant first.now) (map instant others.now))) }
    ensures err { IfErr result (IsFaultOf (first_due style.now.form (Z.view zone.now) style.now.name.now separator.now (instant first.now) (map instant others.now))) }
{
    let kind = Kind::of_count(others.len() + 1);
    add_shown(into, alloc, zone, style, kind, first)?;
    add_after(into, alloc, zone, style, kind, separator, others)
}

/// Adds all instants of a local time of a zone as clocks of another show them, or what skips it.
#[tactic(auto, unfolding(crate::specs::Readings::convert_due))]
fn add_read<F: ReplyZone, T: ReplyZone>(
    into: &mut Vec<u8>,
    alloc: Global,
    from: &F,
    from_name: &str,
    to: &T,
    style: &Style<'_>,
    separator: &[u8],
    local: &PlainDateTime,
) -> Result<(), ReplyFault>
    ensures ok { OnOk result (Ok into.new.items ≡ behind into.old.items (convert_due style.now.form (F.view from.now) from_name.now (T.view to.now) style.now.name.now separator.now local.now)) }
    ensures err { IfErr result (IsFaultOf (convert_due style.now.form (F.view from.now) from_name.now (T.view to.now) style.now.name.now separator.now local.now)) }
{
    if is_untold(from, local) {
        return Err(ReplyFault::Untold);
    }
    let dates = from.instants(alloc, local)?;
    match dates.as_slice() {
        [first, others @ ..] => add_first(into, alloc, to, style, separator, first, others),
        [] => {
            let gap = Style {
                name: from_name,
                form: style.form,
            };
            add_gap(into, alloc, from, &gap, local)
        }
    }
}

/// Adds all instants of a local time of a zone as clocks of another show them, by time, with a separator between them; where the clocks
/// of the first skip it, the change by which they do.
///
/// # Errors
///
/// `Untold` exactly where the local time lies past the first zone's last year; then `OutOfYears` and `Untold` for the first instant that
/// the other doesn't show, as of [`add_at`]; where the clocks of the first skip the local time, `Skipped` in the forms that have instants
/// alone, `Rfc3339` and `Epoch`, or `OutOfYears` where a date of the change lies outside the years; `NoMemory`. The text is as before then.
pub fn add_converted<F: ReplyZone, T: ReplyZone>(
    into: &mut Vec<u8>,
    alloc: Global,
    from: &F,
    from_name: &str,
    to: &T,
    style: &Style<'_>,
    separator: &[u8],
    local: &PlainDateTime,
) -> Result<(), ReplyFault>
    ensures ok { OnOk result (Ok into.new.items ≡ behind into.old.items (convert_due style.now.form (F.view from.now) from_name.now (T.view to.now) style.now.name.now separator.now local.now)) }
    ensures err { OnErr result (into.new.items ≡ into.old.items) }
    ensures cause { IfErr result (IsFaultOf (convert_due style.now.form (F.view from.now) from_name.now (T.view to.now) style.now.name.now separator.now local.now)) }
{
    let mut text = Vec::new(alloc);
    add_read(
        &mut text, alloc, from, from_name, to, style, separator, local,
    )?;
    into.extend_from_slice(&text)?;
    Ok(())
}

/// Adds all instants of a local time of a zone, by time, with a separator between them, or the change that skips it.
///
/// # Errors
///
/// As [`add_converted`], to the zone itself.
pub fn add_local<Z: ReplyZone>(
    into: &mut Vec<u8>,
    alloc: Global,
    zone: &Z,
    style: &Style<'_>,
    separator: &[u8],
    local: &PlainDateTime,
) -> Result<(), ReplyFault>
    ensures ok { OnOk result (Ok into.new.items ≡ behind into.old.items (local_due style.now.form (Z.view zone.now) style.now.name.now separator.now local.now)) }
    ensures err { OnErr result (into.new.items ≡ into.old.items) }
    ensures cause { IfErr result (IsFaultOf (local_due style.now.form (Z.view zone.now) style.now.name.now separator.now local.now)) }
{
    add_converted(into, alloc, zone, style.name, zone, style, separator, local)
}
