//! What a zone shows for ever is what a [`ZoneTz`](crate::ZoneTz) over its spans shows, and a [`ZoneTable`](crate::ZoneTable) to the
//! year 10501.
ghost use Rattle.std.specs.Prelude.{◌≡◌, ℕ, IsTrue, List, Some, ℤ, pos, ◌+ℤ◌, ◌<ℤ◌};
ghost use Rattle.civil_base.specs.{Instants.{instant_at, nanos_of, seconds_of}, Ranges.{IsOffset}};
ghost use Rattle.zone_table.specs.declared.{table.Table.{Table}, zone.ZoneInfo.{ZoneInfo}};
ghost use Rattle.zone_spans.specs.{Lines.{Rulesets}, Schedules.{is_in_offset_range, total_at}, Entries.{Entry}};
ghost use Rattle.tz_ever.specs.{AnyYear.{span_for_ever, total_for_ever}, Opens.{IsFoundForEver, IsZoneToday}, Ever.{IsRepeating, ever_span, ever_total}, Recurrences.{RepeatsAs}, ZoneShown.{recurrence_of, zone_set_of}, ForEver.{IsForEver}, InForce.{span_at}};
ghost use Rattle.tz_ever.specs.{Recurrences.{zone_span, zone_total}, Unrolled.{told, unrolled, unrolled_end, IsLastThere, IsTold}, declared.recurrence.Recurrence.{Recurrence}};
ghost use Rattle.tz_lookup.specs.{Compiles.{IsCompiledAs, compiled_in, spans_of}, InForce.{all_in_force}, Sets.{IsAccepted, schedule_of}, declared.set.FixedTimespanSet.{FixedTimespanSet}};

use crate::cycle::for_ever;
use crate::zone_set::ZoneSet;

/// Where a zone goes on, the set of its spans over 704 years shows at the seam what it shows a cycle later, as
/// [`ZoneSet::build`](crate::ZoneSet::build) asks.
pub fn repeats_at_the_seam()
    ensures { (rulesets : Rulesets) (infos : List ZoneInfo) (set : FixedTimespanSet) → IsForEver rulesets infos set → IsRepeating set }
{
    for_ever::shows_over_enough_years();
    for_ever::repeats();
}

/// The total offset, the abbreviation and the saving that the set shows at any instant, brought back by whole cycles, are those that
/// the zone shows for ever.
pub fn shows_for_ever()
    ensures { (rulesets : Rulesets) (infos : List ZoneInfo) (set : FixedTimespanSet) (t : ℤ) → IsForEver rulesets infos set
        → (ever_total set t ≡ total_for_ever rulesets infos t) × (Some (ever_span set t) ≡ span_for_ever rulesets infos t) }
{
    for_ever::shows_over_enough_years();
    for_ever::brought_back();
    for_ever::total_is_of_span();
}

/// A set that can be looked up can be with the entries of 20 cycles more: each total is an offset, the times don't fall, and they are
/// small.
pub fn unrolled_is_accepted()
    ensures { (set : FixedTimespanSet) → IsAccepted (schedule_of set) → IsAccepted (schedule_of (unrolled set)) }
{}

/// At each instant up to the end of the year 10501 these entries show what the set shows there for ever.
pub fn unrolled_shows()
    ensures { (set : FixedTimespanSet) (t : ℤ) → IsAccepted (schedule_of set) → IsRepeating set → t <ℤ unrolled_end
        → (span_at (spans_of (unrolled set)) t ≡ ever_span set t) × (total_at (schedule_of (unrolled set)) t ≡ ever_total set t) }
{}

/// So they show what the lines of a zone that goes on show for ever.
pub fn unrolled_shows_for_ever()
    ensures { (rulesets : Rulesets) (infos : List ZoneInfo) (set : FixedTimespanSet) (t : ℤ) → IsForEver rulesets infos set
        → IsAccepted (schedule_of set) → t <ℤ unrolled_end
        → (total_at (schedule_of (unrolled set)) t ≡ total_for_ever rulesets infos t)
        × (Some (span_at (spans_of (unrolled set)) t) ≡ span_for_ever rulesets infos t) }
{
    repeats_at_the_seam();
    shows_for_ever();
    unrolled_shows();
}

/// Each of these entries behind which none stands at its second puts in force what the lines do from that second on: the offset, the
/// saving and the abbreviation.
pub fn unrolled_lists()
    ensures { (rulesets : Rulesets) (infos : List ZoneInfo) (set : FixedTimespanSet) (place : ℕ) (entry : Entry) → IsForEver rulesets infos set
        → IsAccepted (schedule_of set) → IsLastThere (unrolled set).others place entry
        → Some entry.1 ≡ span_for_ever rulesets infos (nanos_of entry.0) }
{
    unrolled_is_accepted();
    unrolled_shows_for_ever();
}

/// Each local time 26 hours and more before that end is read as at the same instants, and at the same offsets.
pub fn unrolled_reads()
    ensures { (set : FixedTimespanSet) (x : ℤ) → IsAccepted (schedule_of set) → IsRepeating set → (x +ℤ pos 93600000000000) <ℤ unrolled_end
        → all_in_force (total_at (schedule_of (unrolled set))) x ≡ all_in_force (ever_total set) x }
{
    unrolled_shows();
}

/// All entries that are told of a zone can be looked up too.
pub fn told_is_accepted()
    ensures { (recurrence : Recurrence) (set : FixedTimespanSet) → IsAccepted (schedule_of set) → IsAccepted (schedule_of (told recurrence set)) }
{
    unrolled_is_accepted();
}

/// From the year -10298 to the end of the year 10501, where its changes come again, and else at each instant, they show what the zone does.
pub fn told_shows()
    ensures { (recurrence : Recurrence) (set : FixedTimespanSet) (t : ℤ) → IsAccepted (schedule_of set) → RepeatsAs recurrence set
        → IsTold recurrence t
        → (span_at (spans_of (told recurrence set)) t ≡ zone_span recurrence set t)
        × (total_at (schedule_of (told recurrence set)) t ≡ zone_total recurrence set t) }
{
    unrolled_shows();
}

/// What each [`ZoneSet`] is built from can be looked up, and where its changes come again it shows at the seam what it shows a cycle
/// later.
pub fn of_each_set(set: &ZoneSet)
    ensures accepted { IsAccepted (schedule_of (zone_set_of set.now)) }
    ensures repeats { RepeatsAs (recurrence_of set.now) (zone_set_of set.now) }
{
    let _ = set;
}

/// A name whose zone was compiled, and has no offset of 26 hours or more, has a zone today.
pub fn is_today()
    ensures { (table : Table) (name : List ℕ) (set : FixedTimespanSet) → IsCompiledAs set (compiled_in table name)
        → IsTrue (is_in_offset_range (schedule_of set)) → IsZoneToday table name }
{}

/// Until 2099-11-27 06:40:00 UTC, at least, the set that is found for ever shows what the set does that is compiled to the end of 2099.
pub fn shows_as_today()
    ensures { (table : Table) (name : List ℕ) (set ever : FixedTimespanSet) (t : ℤ) → IsCompiledAs set (compiled_in table name)
        → IsFoundForEver table name ever → t <ℤ pos 4099444800000000000
        → (ever_total ever t ≡ total_at (schedule_of set) t) × (ever_span ever t ≡ span_at (spans_of set) t) }
{
    for_ever::before_2100();
    for_ever::as_before();
}

/// Where two totals are the same at each instant within 26 hours of a local time, it is read at the same instants and offsets.
pub fn reads_alike()
    ensures { (total other : ℤ → ℤ) (x : ℤ) → ((o : ℤ) → IsOffset o → total (instant_at x o) ≡ other (instant_at x o))
        → all_in_force total x ≡ all_in_force other x }
{}

/// One total offset is in force throughout a second.
pub fn holds_in_seconds()
    ensures { (set : FixedTimespanSet) (t : ℤ) → ever_total set t ≡ ever_total set (nanos_of (seconds_of t)) }
{}

/// So it is in each zone.
pub fn zone_holds_in_seconds()
    ensures { (recurrence : Recurrence) (set : FixedTimespanSet) (t : ℤ)
        → zone_total recurrence set t ≡ zone_total recurrence set (nanos_of (seconds_of t)) }
{}
