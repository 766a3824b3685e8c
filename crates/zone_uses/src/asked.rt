//! A zone asked both ways.
ghost use Rattle.std.specs.Prelude.{◌≡◌, IfOk, IfSome, is_some, map, option_map};
ghost use Rattle.civil_base.specs.{DateTimes.{instant}, Instants.{local_at}, Ranges.{is_in_years}};
ghost use Rattle.tz_lookup.specs.{CompactShown.{seen}, InForce.{all_in_force, in_force, shown_of, AreInstants}, Sets.{schedule_of}};
ghost use Rattle.zone_spans.specs.Schedules.{total_at};
ghost use Rattle.zone_uses.specs.Answers.{first_of};

use sefunjaro::{
    CompactSet, CompactTz, OffsetDateTime, OffsetDateTimeExt, OffsetResult, PlainDateTime,
    PrimitiveDateTimeExt,
};
use std::alloc::{AllocError, Global};

/// What a clock in the zone shows at an instant, with its offset; none where the date leaves the years -9999 to 9999.
pub fn local_time(set: &CompactSet, at: &OffsetDateTime) -> Option<OffsetDateTime>
    ensures shown { IfSome result (λ shown. shown_of shown ≡ in_force (total_at (schedule_of (seen set.now))) (instant at.now)) }
    ensures years { is_some result ≡ is_in_years (local_at (instant at.now) (total_at (schedule_of (seen set.now)) (instant at.now))) }
{
    at.to_timezone(&CompactTz::new(set))
}

/// Every instant at which a clock in the zone shows a local time, by time: none in a gap, two in a fold.
///
/// # Errors
///
/// Want of memory alone.
pub fn every_instant(
    alloc: Global,
    set: &CompactSet,
    local: &PlainDateTime,
) -> Result<Vec<OffsetDateTime>, AllocError>
    ensures { IfOk result (λ found. AreInstants (total_at (schedule_of (seen set.now))) local.now (map instant found.items)) }
{
    let zone = CompactTz::new(set);
    let mut found = Vec::new(alloc);
    for each in zone.instants_local(local) {
        found.push(each)?;
    }
    Ok(found)
}

/// When a meeting takes place that is set to a local time: at its only instant, at the earlier of two, and not at all in a gap.
pub fn meeting(set: &CompactSet, local: &PlainDateTime) -> Option<OffsetDateTime>
    ensures { option_map shown_of result ≡ first_of (all_in_force (total_at (schedule_of (seen set.now))) local.now) }
{
    match local.assume_timezone(&CompactTz::new(set)) {
        OffsetResult::None => None,
        OffsetResult::Some(only) => Some(only),
        OffsetResult::Ambiguous(earlier, _) => Some(earlier),
    }
}
