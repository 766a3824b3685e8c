//! Laws of the texts, and of zones and strings that say the same.
ghost use Rattle.std.specs.Prelude.{◌≡◌, ℕ, ℤ, pos, neg_ℤ, ◌≤ℤ◌, ◌<ℤ◌, true, List, [], ◌∷◌, Option, None, is_some, IfSome, Ok};
ghost use Rattle.civil_base.specs.{DateTimes.{instant}, Instants.{seconds_of}};
ghost use Rattle.zone_table.specs.declared.zone.ZoneInfo.{ZoneInfo};
ghost use Rattle.zone_spans.specs.{Compiled.{compiled}, Lines.{Rulesets}, Years.{latest_year}, Schedules.{schedule_of_lines, total_at}};
ghost use Rattle.tz_posix.specs.{TwoRules.{IsCompiled}, Agreement.{IsCovered, IsFromFirstStart, IsInRuleYears, IsNorthern, IsSouthern, RuledValue, SaysTheSame, TwoRuleZone, first_year, value_of, value_total}, PosixShown.{posix_of}};
ghost use Rattle.tz_posix.specs.{PosixZones.{GivesTotal, posix_refusal}, RealPairs.{IsRuledBy, lord_howe_rules, lord_howe_text, lord_howe_value, moldova_rules, moldova_text, moldova_value, new_york_text, new_york_value, us_rules}, Resolved.{resolved}};
ghost use Rattle.tz_posix.specs.{Spells.{Spells, RunsAreLongest, day_times}, Values.{TzValue}};
ghost use Rattle.tz_lookup.specs.{Compiles.{spans_of}, Sets.{schedule_of as schedule_in}, Zones.{set_of}, declared.set.FixedTimespanSet.{FixedTimespanSet}};

use crate::posix::PosixTz;
use civil_base::{OffsetDateTime, UtcOffset};
use tz_lookup::{Offset, TimeZone, Tz};

/// A text spells at most one value.
pub fn one_reading()
    ensures { (text : List ℕ) (x y : TzValue) → Spells text x → Spells text y → x ≡ y }
{}

/// What may follow a name or a number in a text doesn't go on with its letters or digits, so each is a longest run.
pub fn longest_runs()
    ensures { RunsAreLongest day_times }
{}

/// A zone of one line and two yearly rules and the POSIX TZ string that says the same give each instant the same offset.
///
/// The line is ruled, by a ruleset of exactly two rules, listed in either order. Both run from the same year, 2099 at most, to
/// `max`. One has a saving above 0, the other the saving 0. The standard offset, and it with the saving, are at most 89,999
/// seconds in size. Both times are times of day by the wall's clock, from 0 to 86,399 seconds. Each day is `last` with a
/// weekday, or a weekday with `>=` 1, 8, 15 or 22. The start of a year is when the rule with the saving fires under none, the
/// end is when the other fires under the saving; in each year that is expanded, from that of the rules, or 1800, to 2099, both
/// lie in the year by clocks of standard time. Either the start comes first in all of these years, as north of the equator, or
/// the end does in all of them, as south of it. These starts and ends, put in order, are more than the saving apart from one to
/// the next. The string has the same two offsets, both written, and for each rule an `M` date of the same month and weekday,
/// the 1st, 2nd, 3rd or 4th for `>=` 1, 8, 15 or 22 and the 5th for `last`, at the same time of day.
///
/// Then the zone has a schedule, and its total offset is the string's at every instant of those years of a northern pair, and
/// at every instant of a southern pair from the first start up to the end of 2099.
///
/// Nothing is said of the years before the rules', nor of a southern pair's time before its first start: there the zone has
/// standard time, and the string may have daylight saving time. Nothing is said of instants past 2099, where a zone keeps what
/// its last entry holds, nor of abbreviations.
pub fn two_yearly_rules_agree()
    ensures compiled { (rulesets : Rulesets) (zone : TwoRuleZone) (q : RuledValue) → SaysTheSame rulesets zone q
        → IsCompiled rulesets (zone.line ∷ []) }
    ensures northern { (rulesets : Rulesets) (zone : TwoRuleZone) (q : RuledValue) → SaysTheSame rulesets zone q
        → IsNorthern zone → (t : ℤ) → IsInRuleYears zone.line.offset (first_year zone.from) (pos latest_year) (seconds_of t)
        → total_at (schedule_of_lines rulesets (zone.line ∷ [])) t ≡ value_total q (seconds_of t) }
    ensures southern { (rulesets : Rulesets) (zone : TwoRuleZone) (q : RuledValue) → SaysTheSame rulesets zone q
        → IsSouthern zone → (t : ℤ) → IsFromFirstStart zone (seconds_of t)
        → total_at (schedule_of_lines rulesets (zone.line ∷ [])) t ≡ value_total q (seconds_of t) }
{}

/// Three real pairs of rules meet each condition of [`two_yearly_rules_agree`], as rulesets of exactly these two: that of the
/// United States from 2007 on at -5:00, with `EST5EDT4,M3.2.0,M11.1.0`; that of Lord Howe Island from 2008 on at 10:30, with
/// `<+1030>-10:30<+11>-11,M10.1.0,M4.1.0`; and that of Moldova from 1997 on at 2:00, as the tz database had it in 2025, with
/// `EET-2EEST-3,M3.5.0,M10.5.0/3`, on last Sundays and at two different times.
///
/// So a zone with the first pair agrees with its string from 2007-01-01 05:00 UTC up to 2100-01-01 05:00, one with the second
/// from 2008-10-04 15:30 UTC up to 2099-12-31 13:30, and one with the third from 1996-12-31 22:00 UTC up to 2099-12-31 22:00.
pub fn real_pairs_agree()
    ensures new_york_text { Spells new_york_text (value_of new_york_value) }
    ensures new_york_conditions { (rulesets : Rulesets) (line : ZoneInfo) (d s : Option (List ℕ))
        → IsRuledBy rulesets (neg_ℤ (pos 18_000)) (us_rules line d s)
        → SaysTheSame rulesets (us_rules line d s) new_york_value × IsNorthern (us_rules line d s) }
    ensures new_york { (rulesets : Rulesets) (line : ZoneInfo) (d s : Option (List ℕ))
        → IsRuledBy rulesets (neg_ℤ (pos 18_000)) (us_rules line d s)
        → (t : ℤ) → pos 1_167_627_600 ≤ℤ seconds_of t → seconds_of t <ℤ pos 4_102_462_800
        → total_at (schedule_of_lines rulesets (line ∷ [])) t ≡ value_total new_york_value (seconds_of t) }
    ensures lord_howe_text { Spells lord_howe_text (value_of lord_howe_value) }
    ensures lord_howe_conditions { (rulesets : Rulesets) (line : ZoneInfo) (d s : Option (List ℕ))
        → IsRuledBy rulesets (pos 37_800) (lord_howe_rules line d s)
        → SaysTheSame rulesets (lord_howe_rules line d s) lord_howe_value × IsSouthern (lord_howe_rules line d s) }
    ensures lord_howe { (rulesets : Rulesets) (line : ZoneInfo) (d s : Option (List ℕ))
        → IsRuledBy rulesets (pos 37_800) (lord_howe_rules line d s)
        → (t : ℤ) → pos 1_223_134_200 ≤ℤ seconds_of t → seconds_of t <ℤ pos 4_102_407_000
        → total_at (schedule_of_lines rulesets (line ∷ [])) t ≡ value_total lord_howe_value (seconds_of t) }
    ensures moldova_text { Spells moldova_text (value_of moldova_value) }
    ensures moldova_conditions { (rulesets : Rulesets) (line : ZoneInfo) (d s : Option (List ℕ))
        → IsRuledBy rulesets (pos 7_200) (moldova_rules line d s)
        → SaysTheSame rulesets (moldova_rules line d s) moldova_value × IsNorthern (moldova_rules line d s) }
    ensures moldova { (rulesets : Rulesets) (line : ZoneInfo) (d s : Option (List ℕ))
        → IsRuledBy rulesets (pos 7_200) (moldova_rules line d s)
        → (t : ℤ) → pos 852_069_600 ≤ℤ seconds_of t → seconds_of t <ℤ pos 4_102_437_600
        → total_at (schedule_of_lines rulesets (line ∷ [])) t ≡ value_total moldova_value (seconds_of t) }
{}

/// The offset that a zone and a POSIX TZ string both give a date-time; none where they give two, or the string is refused.
///
/// Where the zone is compiled of a line of two yearly rules and the string says the same, as [`two_yearly_rules_agree`] has it,
/// there is one at each instant that the law speaks of.
pub fn agreed_offset(
    zone: &Tz<'_>,
    posix: &PosixTz<'_>,
    date_time: &OffsetDateTime,
) -> Option<UtcOffset>
    ensures of_zone { IfSome result (λ offset. offset ≡ total_at (schedule_in (set_of zone.now)) (instant date_time.now)) }
    ensures of_string { IfSome result (GivesTotal (posix_of posix.now) (instant date_time.now)) }
    ensures none { result ≡ None → posix_refusal (posix_of posix.now) (instant date_time.now) ≡ None
        → ¬ (GivesTotal (posix_of posix.now) (instant date_time.now) (total_at (schedule_in (set_of zone.now)) (instant date_time.now))) }
    ensures agreed { (rulesets : Rulesets) (pair : TwoRuleZone) (q : RuledValue) (zones : List FixedTimespanSet)
        → SaysTheSame rulesets pair q → compiled rulesets (pair.line ∷ []) ≡ Ok (spans_of (set_of zone.now))
        → resolved zones (value_of q) ≡ Ok (posix_of posix.now) → IsCovered pair (seconds_of (instant date_time.now))
        → is_some result ≡ true }
{
    match posix.get_offset(date_time) {
        Ok(offset) => {
            let of_zone = zone.get_offset_utc(date_time).to_utc();
            let of_string = offset.to_utc();
            shared(of_zone, of_string)
        }
        Err(_) => None,
    }
}

/// An offset, where the other is the same.
fn shared(offset: UtcOffset, other: UtcOffset) -> Option<UtcOffset>
    ensures first { IfSome result (λ both. both ≡ offset) }
    ensures second { IfSome result (λ both. both ≡ other) }
    ensures same { offset ≡ other → is_some result ≡ true }
{
    if offset.whole_seconds() == other.whole_seconds() {
        Some(offset)
    } else {
        None
    }
}
