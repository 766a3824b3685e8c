//! The saving and the changes of a zone, the ring of a daily alarm, and the last year up to whose end a zone says what is in force.
ghost use Rattle.std.specs.Prelude.{◌≡◌};
ghost use Rattle.sefunjaro_c.specs.{Answers.{Where}, Changes.{AreChanges, IsFound, IsRing}, Times.{is_instant}, Opened.{StaysLent}, Held.{OfKept, OfZone, OnZone}, Statuses.{IfRefused}};
ghost use Rattle.sefunjaro.specs.{Changes.{next_after, saving_at}, Zones.{last_year, origin_in, recurrence_in, spans_in}};

use crate::fault::{DONE, NONE_THERE, NOT_KEPT, NOT_OPEN, OUT_OF_RANGE};
use crate::opened::Opened;
use crate::view::View;
use crate::zones::instant_of;
use sefunjaro::{Change, Clock, OpenZone, Origin, Reading};

/// The saving that is in force at an instant, in seconds, in a zone of a source: a file or a string keeps none. A change lies on a whole
/// second, so the nanosecond only has to be one.
#[unsafe(no_mangle)]
pub extern "C" fn sefunjaro_saving_at_by(
    zone: &mut View,
    second: i64,
    nanosecond: u32,
    saving: &mut i64,
) -> u32
    ensures lent { StaysLent zone.old zone.new }
    ensures answer { OnZone zone.old.part.opened result (saving.new ≡ saving.old)
        (λ held. OfKept held result (saving.new ≡ saving.old)
        (λ zone. Where (is_instant second nanosecond) result (saving.new ≡ saving.old) (saving.new ≡ saving_at (spans_in zone) second))) }
    ensures kept { IfRefused result (saving.new ≡ saving.old) }
{
    let Some(reading) = zone.take() else {
        return NOT_OPEN;
    };
    let status = saving_at(reading.get(), second, nanosecond, saving);
    zone.put(reading);
    status
}

fn saving_at(opened: &Opened, second: i64, nanosecond: u32, saving: &mut i64) -> u32
    ensures answer { OfZone opened.now result (saving.new ≡ saving.old)
        (λ held. OfKept held result (saving.new ≡ saving.old)
        (λ zone. Where (is_instant second nanosecond) result (saving.new ≡ saving.old) (saving.new ≡ saving_at (spans_in zone) second))) }
    ensures kept { IfRefused result (saving.new ≡ saving.old) }
{
    let Opened::Zone(zone) = opened else {
        return NOT_OPEN;
    };
    match zone.origin() {
        Origin::Source => saving_of(zone, second, nanosecond, saving),
        Origin::File => NOT_KEPT,
    }
}

fn saving_of(zone: &OpenZone, second: i64, nanosecond: u32, saving: &mut i64) -> u32
    ensures answer { Where (is_instant second nanosecond) result (saving.new ≡ saving.old) (saving.new ≡ saving_at (spans_in zone.now) second) }
    ensures kept { IfRefused result (saving.new ≡ saving.old) }
{
    match instant_of(second, nanosecond) {
        Some(_) => {
            *saving = zone.saving_at(second);
            DONE
        }
        None => OUT_OF_RANGE,
    }
}

/// The first change after a second, if there is one.
#[unsafe(no_mangle)]
pub extern "C" fn sefunjaro_next_change_by(zone: &mut View, second: i64, change: &mut Change) -> u32
    ensures lent { StaysLent zone.old zone.new }
    ensures answer { OnZone zone.old.part.opened result (change.new ≡ change.old)
        (λ zone. IsFound (next_after (spans_in zone) second) result change.old change.new) }
    ensures kept { IfRefused result (change.new ≡ change.old) }
{
    let Some(reading) = zone.take() else {
        return NOT_OPEN;
    };
    let status = next_change(reading.get(), second, change);
    zone.put(reading);
    status
}

fn next_change(opened: &Opened, second: i64, change: &mut Change) -> u32
    ensures answer { OfZone opened.now result (change.new ≡ change.old)
        (λ zone. IsFound (next_after (spans_in zone) second) result change.old change.new) }
    ensures kept { IfRefused result (change.new ≡ change.old) }
{
    let Opened::Zone(zone) = opened else {
        return NOT_OPEN;
    };
    match zone.next_change(second) {
        Some(found) => {
            *change = found;
            DONE
        }
        None => NONE_THERE,
    }
}

/// The changes from a second on and before another, by time, as far as they fit, and how many there are.
#[unsafe(no_mangle)]
pub extern "C" fn sefunjaro_changes_by(
    zone: &mut View,
    from: i64,
    to: i64,
    changes: &mut [Change],
    count: &mut usize,
) -> u32
    ensures lent { StaysLent zone.old zone.new }
    ensures answer { OnZone zone.old.part.opened result (changes.new ≡ changes.old)
        (λ zone. AreChanges zone from to result changes.old changes.new count.new) }
    ensures kept { IfRefused result ((changes.new ≡ changes.old) × (count.new ≡ count.old)) }
{
    let Some(reading) = zone.take() else {
        return NOT_OPEN;
    };
    let status = all_changes(reading.get(), from, to, changes, count);
    zone.put(reading);
    status
}

fn all_changes(
    opened: &Opened,
    from: i64,
    to: i64,
    changes: &mut [Change],
    count: &mut usize,
) -> u32
    ensures answer { OfZone opened.now result (changes.new ≡ changes.old)
        (λ zone. AreChanges zone from to result changes.old changes.new count.new) }
    ensures kept { IfRefused result ((changes.new ≡ changes.old) × (count.new ≡ count.old)) }
{
    let Opened::Zone(zone) = opened else {
        return NOT_OPEN;
    };
    *count = zone.changes(from, to, changes);
    DONE
}

/// The ring of a daily alarm on the day and at the time of day of a local time: the first instant at which clocks show it, if
/// they do.
#[unsafe(no_mangle)]
pub extern "C" fn sefunjaro_ring_by(zone: &mut View, local: &Clock, ring: &mut Reading) -> u32
    ensures lent { StaysLent zone.old zone.new }
    ensures answer { OnZone zone.old.part.opened result (ring.new ≡ ring.old)
        (λ held. IsRing held local.now result ring.old ring.new) }
    ensures kept { IfRefused result (ring.new ≡ ring.old) }
{
    let Some(reading) = zone.take() else {
        return NOT_OPEN;
    };
    let status = ring_of(reading.get(), local, ring);
    zone.put(reading);
    status
}

fn ring_of(opened: &Opened, clock: &Clock, ring: &mut Reading) -> u32
    ensures answer { OfZone opened.now result (ring.new ≡ ring.old) (λ held. IsRing held clock.now result ring.old ring.new) }
    ensures kept { IfRefused result (ring.new ≡ ring.old) }
{
    let Opened::Zone(zone) = opened else {
        return NOT_OPEN;
    };
    match clock.local() {
        Some(local) => match zone.ring(&local) {
            Some(first) => {
                *ring = first;
                DONE
            }
            None => NONE_THERE,
        },
        None => OUT_OF_RANGE,
    }
}

/// The last year up to whose end a zone says what is in force.
#[unsafe(no_mangle)]
pub extern "C" fn sefunjaro_years_by(zone: &mut View, year: &mut i32) -> u32
    ensures lent { StaysLent zone.old zone.new }
    ensures answer { OnZone zone.old.part.opened result (year.new ≡ year.old)
        (λ zone. (result ≡ 0) × (year.new ≡ last_year (origin_in zone) (recurrence_in zone))) }
    ensures kept { IfRefused result (year.new ≡ year.old) }
{
    let Some(reading) = zone.take() else {
        return NOT_OPEN;
    };
    let status = last_year(reading.get(), year);
    zone.put(reading);
    status
}

fn last_year(opened: &Opened, year: &mut i32) -> u32
    ensures answer { OfZone opened.now result (year.new ≡ year.old)
        (λ zone. (result ≡ 0) × (year.new ≡ last_year (origin_in zone) (recurrence_in zone))) }
    ensures kept { IfRefused result (year.new ≡ year.old) }
{
    let Opened::Zone(zone) = opened else {
        return NOT_OPEN;
    };
    *year = zone.last_year();
    DONE
}
