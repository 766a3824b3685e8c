//! The lines of an alarm's rings.
ghost use Rattle.std.specs.Prelude.{◌≡◌, ◌<◌, true, map, IfErr, IfOk, Ok, OnErr, OnOk};
ghost use Rattle.civil_base.specs.DateTimes.{instant};
ghost use Rattle.zone_texts.specs.{Faults.{behind, each_due, IsFaultOf}, Instants.{line_due}, Days.{day_after, is_dated, step_of}, Left.{is_full, left_after}, Rings.{counts, lines_due, rings_due, rung_on}};
ghost use Rattle.zone_words.specs.TaskShown.{alarm_shown};

use crate::days::{count_between, day_after, is_on, step_of};
use crate::fault::ReplyFault;
use crate::instants::rings_at;
use crate::line::{Style, is_untold};
use crate::readings::add_at_line;
use crate::view::ReplyZone;
use civil_base::{Date, OffsetDateTime, PlainDateTime};
use std::alloc::Global;
use zone_words::Alarm;

/// Adds the lines of some instants.
fn add_lines<Z: ReplyZone>(
    into: &mut Vec<u8>,
    alloc: Global,
    zone: &Z,
    style: &Style<'_>,
    dates: &[OffsetDateTime],
) -> Result<(), ReplyFault>
    ensures ok { OnOk result (Ok into.new.items ≡ behind into.old.items (each_due (line_due style.now.form (Z.view zone.now) style.now.name.now) (map instant dates.now))) }
    ensures err { IfErr result (IsFaultOf (each_due (line_due style.now.form (Z.view zone.now) style.now.name.now) (map instant dates.now))) }
{
    for date in dates {
        add_at_line(into, alloc, zone, style, date)?;
    }
    Ok(())
}

/// Adds the lines of a day's rings, and tells whether there are any.
fn add_day<Z: ReplyZone>(
    into: &mut Vec<u8>,
    alloc: Global,
    zone: &Z,
    style: &Style<'_>,
    alarm: &Alarm,
    date: Date,
) -> Result<bool, ReplyFault>
    requires { is_dated date ≡ true }
    ensures ok { OnOk result (Ok into.new.items ≡ behind into.old.items (lines_due style.now.form (Z.view zone.now) style.now.name.now (rung_on (Z.view zone.now) (alarm_shown alarm.now) date))) }
    ensures rung { IfOk result (λ rung. rung ≡ counts (rung_on (Z.view zone.now) (alarm_shown alarm.now) date)) }
    ensures err { IfErr result (IsFaultOf (lines_due style.now.form (Z.view zone.now) style.now.name.now (rung_on (Z.view zone.now) (alarm_shown alarm.now) date))) }
{
    if !is_on(&alarm.days, date) {
        return Ok(false);
    }
    let local = PlainDateTime::new(date, alarm.time);
    if is_untold(zone, &local) {
        return Err(ReplyFault::Untold);
    }
    let rings = rings_at(alloc, zone, alarm.gap, alarm.fold, &local)?;
    let dates = rings.as_slice();
    add_lines(into, alloc, zone, style, dates)?;
    Ok(!dates.is_empty())
}

/// Adds the lines of the day after so many steps, and tells whether there are any.
fn add_day_after<Z: ReplyZone>(
    into: &mut Vec<u8>,
    alloc: Global,
    zone: &Z,
    style: &Style<'_>,
    alarm: &Alarm,
    past: u64,
) -> Result<bool, ReplyFault>
    requires { past < 4294967296 }
    ensures ok { OnOk result (Ok into.new.items ≡ behind into.old.items
        (lines_due style.now.form (Z.view zone.now) style.now.name.now (rung_on (Z.view zone.now) (alarm_shown alarm.now) (day_after alarm.now.first (step_of alarm.now.every) past)))) }
    ensures rung { IfOk result (λ rung. rung ≡ counts (rung_on (Z.view zone.now) (alarm_shown alarm.now) (day_after alarm.now.first (step_of alarm.now.every) past))) }
    ensures err { IfErr result (IsFaultOf
        (lines_due style.now.form (Z.view zone.now) style.now.name.now (rung_on (Z.view zone.now) (alarm_shown alarm.now) (day_after alarm.now.first (step_of alarm.now.every) past)))) }
{
    match day_after(alarm.first, step_of(alarm.every), past) {
        Some(date) => add_day(into, alloc, zone, style, alarm, date),
        None => Err(ReplyFault::OutOfYears),
    }
}

/// Whether it rings on no more days.
fn is_full(left: Option<u16>) -> bool
    ensures { result ≡ is_full left }
{
    match left {
        Some(count) => count == 0,
        None => false,
    }
}

/// On how many days it still rings after one on which it did or didn't.
fn left_after(left: Option<u16>, rung: bool) -> Option<u16>
    ensures { result ≡ left_after left rung }
{
    match left {
        Some(count) => Some(if rung { count.saturating_sub(1) } else { count }),
        None => None,
    }
}

/// Adds the lines of an alarm's rings.
fn add_days<Z: ReplyZone>(
    into: &mut Vec<u8>,
    alloc: Global,
    zone: &Z,
    style: &Style<'_>,
    alarm: &Alarm,
) -> Result<(), ReplyFault>
    ensures ok { OnOk result (Ok into.new.items ≡ behind into.old.items (rings_due style.now.form (Z.view zone.now) style.now.name.now (alarm_shown alarm.now))) }
    ensures err { IfErr result (IsFaultOf (rings_due style.now.form (Z.view zone.now) style.now.name.now (alarm_shown alarm.now))) }
{
    let mut left = alarm.count;
    for past in 0..count_between(alarm.first, alarm.until, step_of(alarm.every)) {
        if is_full(left) {
            return Ok(());
        }
        let rung = add_day_after(into, alloc, zone, style, alarm, past)?;
        left = left_after(left, rung);
    }
    Ok(())
}

/// Adds a line for each ring of an alarm in a zone: what clocks show then, as of [`crate::add_at`], the days in their order and the rings of a day
/// by time. The days are the first, each `every` days after it (one where that is 0) whose weekday is wanted, up to and with the last; where
/// a count is told, the days on which it rings are no more than that, and one on which clocks skip the time doesn't count where it doesn't
/// ring then.
///
/// # Errors
///
/// What is due first: `Untold` exactly where a local time of a wanted day that is reached lies past the zone's last year; `OutOfYears`
/// exactly where a day is reached outside the years -9999 to 9999, which a last day rules out; what [`crate::add_at`] tells of a ring;
/// `NoMemory`. The text is as before then.
pub fn add_rings<Z: ReplyZone>(
    into: &mut Vec<u8>,
    alloc: Global,
    zone: &Z,
    style: &Style<'_>,
    alarm: &Alarm,
) -> Result<(), ReplyFault>
    ensures ok { OnOk result (Ok into.new.items ≡ behind into.old.items (rings_due style.now.form (Z.view zone.now) style.now.name.now (alarm_shown alarm.now))) }
    ensures err { OnErr result (into.new.items ≡ into.old.items) }
    ensures cause { IfErr result (IsFaultOf (rings_due style.now.form (Z.view zone.now) style.now.name.now (alarm_shown alarm.now))) }
{
    let mut text = Vec::new(alloc);
    add_days(&mut text, alloc, zone, style, alarm)?;
    into.extend_from_slice(&text)?;
    Ok(())
}
