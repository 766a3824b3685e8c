//! An open zone as replies ask it.
ghost use Rattle.std.specs.Prelude.{◌≡◌, length, map, IfOk};
ghost use Rattle.tz_lookup.specs.{InForce.{all_in_force, shown_of}, Sets.{schedule_of, IsAccepted}};
ghost use Rattle.zone_texts.specs.Forces.{force_shown};
ghost use Rattle.sefunjaro.specs.{Changes.{span_before, window}, Replies.{differing, force_of, span_on}, Zones.{spans_in}};

use crate::changes::{Change, entries_before, span_in_force_at};
use crate::zone::OpenZone;
use civil_base::{OffsetDateTime, PlainDateTime, UtcOffset};
use std::alloc::{AllocError, Global};
use tz_ever::{ZoneTable, ZoneTz};
use tz_lookup::{AllInstants, FixedTimespan, InstantsOf, SpanTable, offset_of};
use zone_texts::{Force, ReplyZone};

/// The offset in force at a second.
fn offset_on<S: SpanTable>(set: &S, second: i64) -> UtcOffset
    requires { IsAccepted (schedule_of (S.seen set.now)) }
    ensures { result ≡ (force_of (span_on (S.seen set.now) second)).offset }
{
    offset_of(set, span_in_force_at(set, second))
}

/// The offset in force just before a second.
fn offset_until<S: SpanTable>(set: &S, second: i64) -> UtcOffset
    requires { IsAccepted (schedule_of (S.seen set.now)) }
    ensures { result ≡ (force_of (span_before (S.seen set.now) second)).offset }
{
    offset_of(set, entries_before(set, second))
}

/// What a span puts in force by that offset.
fn force_by(alloc: Global, span: &FixedTimespan, offset: UtcOffset) -> Result<Force, AllocError>
    requires { offset ≡ (force_of span.now).offset }
    ensures { IfOk result (λ force. force_shown force ≡ force_of span.now) }
{
    Ok(Force {
        offset,
        saving: span.dst_offset,
        name: String::from_str(alloc, span.name.as_str())?,
    })
}

/// What is in force at a second.
fn force_on<S: SpanTable>(alloc: Global, set: &S, second: i64) -> Result<Force, AllocError>
    requires { IsAccepted (schedule_of (S.seen set.now)) }
    ensures { IfOk result (λ force. force_shown force ≡ force_of (span_on (S.seen set.now) second)) }
{
    force_by(
        alloc,
        set.span(span_in_force_at(set, second)),
        offset_on(set, second),
    )
}

/// What is in force just before a second.
fn force_until<S: SpanTable>(alloc: Global, set: &S, second: i64) -> Result<Force, AllocError>
    requires { IsAccepted (schedule_of (S.seen set.now)) }
    ensures { IfOk result (λ force. force_shown force ≡ force_of (span_before (S.seen set.now) second)) }
{
    force_by(
        alloc,
        set.span(entries_before(set, second)),
        offset_until(set, second),
    )
}

/// All instants of a local time.
fn instants_of<T: AllInstants>(
    alloc: Global,
    zone: &T,
    local: &PlainDateTime,
) -> Result<Vec<OffsetDateTime>, AllocError>
    ensures { IfOk result (λ found. map shown_of found.items ≡ all_in_force (T.total_at zone.now) local.now) }
{
    let mut found = Vec::new(alloc);
    for date in InstantsOf::new(zone, local) {
        found.extend_from_slice(&[date])?;
    }
    Ok(found)
}

/// The seconds of the changes that change something.
fn differing(alloc: Global, changes: &[Change]) -> Result<Vec<i64>, AllocError>
    ensures { IfOk result (λ seconds. seconds.items ≡ differing changes.now) }
{
    changes
        .iter()
        .filter(|change| change.differs)
        .map(|change| change.second)
        .collect(alloc)
}

/// No change, as room for one.
const NO_CHANGE: Change = Change {
    second: 0,
    offset: 0,
    saving: 0,
    name_length: 0,
    differs: false,
};

/// The seconds of the changes of a window that change something, over room for all of them.
fn differing_within(
    alloc: Global,
    zone: &OpenZone,
    from: i64,
    to: i64,
    room: &mut [Change],
) -> Result<Vec<i64>, AllocError>
    requires { length room.old ≡ length (window (spans_in zone.now) from to) }
    ensures { IfOk result (λ seconds. seconds.items ≡ differing (window (spans_in zone.now) from to)) }
{
    let _ = zone.changes(from, to, room);
    differing(alloc, room)
}

impl ReplyZone for OpenZone {
    ghost use Rattle.sefunjaro.specs.{Replies.{reply_view}, Zones.{all_in, origin_in, recurrence_in}};

    ghost view = { λ zone. reply_view (origin_in zone) (recurrence_in zone) (all_in zone) };

    fn last_year(&self) -> i32 {
        OpenZone::last_year(self)
    }

    fn shown_at(&self, at: &OffsetDateTime) -> Option<OffsetDateTime> {
        OpenZone::shown_at(self, at)
    }

    fn offset_at(&self, second: i64) -> UtcOffset {
        offset_on(&ZoneTable::new(&self.zone), second)
    }

    fn offset_before(&self, second: i64) -> UtcOffset {
        offset_until(&ZoneTable::new(&self.zone), second)
    }

    fn force_at(&self, alloc: Global, second: i64) -> Result<Force, AllocError> {
        force_on(alloc, &ZoneTable::new(&self.zone), second)
    }

    fn force_before(&self, alloc: Global, second: i64) -> Result<Force, AllocError> {
        force_until(alloc, &ZoneTable::new(&self.zone), second)
    }

    fn instants(
        &self,
        alloc: Global,
        local: &PlainDateTime,
    ) -> Result<Vec<OffsetDateTime>, AllocError> {
        instants_of(alloc, &ZoneTz::new(&self.zone), local)
    }

    fn changes(&self, alloc: Global, from: i64, to: i64) -> Result<Vec<i64>, AllocError> {
        let count = OpenZone::changes(self, from, to, &mut []);
        let mut room = vec![in alloc; NO_CHANGE; count]?;
        differing_within(alloc, self, from, to, &mut room)
    }
}
