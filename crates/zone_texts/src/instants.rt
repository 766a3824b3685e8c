//! The instants at which an alarm rings that is set to a local time.
ghost use Rattle.std.specs.Prelude.{◌≡◌, [], ◌∷◌, map, IfOk};
ghost use Rattle.civil_base.specs.{DateTimes.{instant}, Instants.{instant_at}};
ghost use Rattle.zone_texts.specs.Rings.{by_fold, by_gap, rings_at, second_of};
ghost use Rattle.zone_words.specs.declared.task.FoldRule.TheVariants.{First};

use crate::skip::skipping;
use crate::view::ReplyZone;
use civil_base::{OffsetDateTime, PlainDateTime, UtcOffset};
use std::alloc::{AllocError, Global};
use zone_words::{FoldRule, GapRule};

/// The first.
fn first_of(dates: &[OffsetDateTime]) -> &[OffsetDateTime]
    ensures { map instant result.now ≡ by_fold First (map instant dates.now) }
{
    if dates.is_empty() { dates } else { &dates[..1] }
}

/// The second, or the one where there is no more.
fn second_of(dates: &[OffsetDateTime]) -> &[OffsetDateTime]
    ensures { map instant result.now ≡ second_of (map instant dates.now) }
{
    if dates.len() < 2 { dates } else { &dates[1..2] }
}

/// Of the instants of a local time, by time, those at which it rings.
fn by_fold(rule: FoldRule, dates: &[OffsetDateTime]) -> &[OffsetDateTime]
    ensures { map instant result.now ≡ by_fold rule (map instant dates.now) }
{
    match rule {
        FoldRule::First => first_of(dates),
        FoldRule::Second => second_of(dates),
        FoldRule::Both => dates,
    }
}

/// The instant of a local time by an offset, alone.
fn at_offset(
    alloc: Global,
    local: &PlainDateTime,
    offset: UtcOffset,
) -> Result<Vec<OffsetDateTime>, AllocError>
    ensures { IfOk result (λ found. map instant found.items ≡ instant_at local.now offset ∷ []) }
{
    let date = local.assume_offset(offset);
    let found = Vec::from_slice(alloc, &[date])?;
    Ok(found)
}

/// The instant at which it rings where clocks skip a local time, if it does.
fn by_gap<Z: ReplyZone>(
    alloc: Global,
    zone: &Z,
    rule: GapRule,
    local: &PlainDateTime,
) -> Result<Vec<OffsetDateTime>, AllocError>
    ensures { IfOk result (λ found. map instant found.items ≡ by_gap rule (Z.view zone.now) local.now) }
{
    let Some(second) = skipping(alloc, zone, local)? else {
        return Ok(Vec::new(alloc));
    };
    match rule {
        GapRule::Skip => Ok(Vec::new(alloc)),
        GapRule::Before => at_offset(alloc, local, zone.offset_before(second)),
        GapRule::After => at_offset(alloc, local, zone.offset_at(second)),
    }
}

/// The instants at which it rings that is set to a local time, by time.
#[tactic(auto, unfolding(crate::specs::Rings::rings_at))]
pub(crate) fn rings_at<Z: ReplyZone>(
    alloc: Global,
    zone: &Z,
    gap: GapRule,
    fold: FoldRule,
    local: &PlainDateTime,
) -> Result<Vec<OffsetDateTime>, AllocError>
    ensures { IfOk result (λ found. map instant found.items ≡ rings_at gap fold (Z.view zone.now) local.now) }
{
    let dates = zone.instants(alloc, local)?;
    match dates.as_slice() {
        [] => by_gap(alloc, zone, gap, local),
        some => Vec::from_slice(alloc, by_fold(fold, some)),
    }
}
