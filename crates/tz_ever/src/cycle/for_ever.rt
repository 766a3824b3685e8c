//! What a zone that goes on shows in any year.
//!
//! `GoesOn` says of a zone's lines and rulesets that it does, by tests over one cycle of 400 years; `total_for_ever` and
//! `span_for_ever` are what its lines show at an instant, in nanoseconds from 1970-01-01 00:00:00 UTC, where they are expanded over
//! as many years as the instant asks for.
ghost use Rattle.std.specs.{Prelude.{◌≡◌, ℕ, ◌≤◌, List, true, Ok, Some, ℤ, pos, ◌*ℤ◌, ◌<ℤ◌}, List.{list_all}, Option.{option_map_or}};
ghost use Rattle.zone_spans.specs.{Cycle.{instant_on}, GoesOn.{GoesOn}, Bounds.{is_bounded_line}, Compiled.{compiled, compiled_over}, Entries.{total}, Lines.{Rulesets, zone_lines}, Schedules.{is_in_offset_range, total_at, totals_of, schedule_over}};
ghost use Rattle.zone_spans.specs.declared.span.FixedTimespanSet.{FixedTimespanSet};
ghost use Rattle.tz_ever.specs.{AnyYear.{AreEnough, IsFrom2101, instants_on, is_before_cycle, span_for_ever, span_told, total_for_ever, years_for}, InForce.{span_at}};
ghost use Rattle.zone_table.specs.declared.zone.ZoneInfo.{ZoneInfo};

/// From 2101 on a zone that goes on, and has a schedule, shows at each instant what it shows 400 years, or 12,622,780,800 seconds,
/// later: the total offset, and the offset, the saving and the abbreviation.
pub fn repeats()
    ensures { (rulesets : Rulesets) (infos : List ZoneInfo) (set : FixedTimespanSet) (t : ℤ) → GoesOn rulesets infos
        → compiled rulesets infos ≡ Ok set → IsFrom2101 t
        → (total_for_ever rulesets infos (instant_on t) ≡ total_for_ever rulesets infos t)
        × (span_for_ever rulesets infos (instant_on t) ≡ span_for_ever rulesets infos t) }
{}

/// So it does any number of cycles later, and an instant may be brought back by whole cycles to the years 2101 to 2500.
pub fn repeats_in_each_cycle()
    ensures { (rulesets : Rulesets) (infos : List ZoneInfo) (set : FixedTimespanSet) (cycles : ℕ) (t : ℤ) → GoesOn rulesets infos
        → compiled rulesets infos ≡ Ok set → IsFrom2101 t
        → (total_for_ever rulesets infos (instants_on cycles t) ≡ total_for_ever rulesets infos t)
        × (span_for_ever rulesets infos (instants_on cycles t) ≡ span_for_ever rulesets infos t) }
{}

/// Before the first second at which a rule puts something in force from the year 2100 on, and at every instant where no rule lasts,
/// it shows what the set that `zone_spans` compiles does. That second is no round one: the first rule of 2100 may fire before the
/// year begins in UTC, or long after.
pub fn as_before()
    ensures { (rulesets : Rulesets) (infos : List ZoneInfo) (set : FixedTimespanSet) (t : ℤ) → GoesOn rulesets infos
        → compiled rulesets infos ≡ Ok set → is_before_cycle (zone_lines rulesets infos) t ≡ true
        → (total_for_ever rulesets infos t ≡ total_at (totals_of set) t)
        × (span_for_ever rulesets infos t ≡ Some (span_at set t)) }
{}

/// Where its numbers are small, as those of every table that was read, nothing of 2100 comes before 2099-11-27 06:40:00 UTC: until
/// then, at least, it shows what that set does.
pub fn before_2100()
    ensures { (rulesets : Rulesets) (infos : List ZoneInfo) (set : FixedTimespanSet) (t : ℤ) → GoesOn rulesets infos
        → compiled rulesets infos ≡ Ok set → list_all is_bounded_line (zone_lines rulesets infos) ≡ true
        → t <ℤ (pos 4099444800 *ℤ pos 1000000000) → is_before_cycle (zone_lines rulesets infos) t ≡ true }
{}

/// Over any two numbers of years, of 300 or more, that both lie two years past the instant's own it shows the same, where its numbers
/// are small and each total is less than 26 hours. So none of them is a choice.
pub fn stable()
    ensures { (rulesets : Rulesets) (infos : List ZoneInfo) (set : FixedTimespanSet) (n m : ℕ) (t : ℤ) → GoesOn rulesets infos
        → compiled rulesets infos ≡ Ok set → list_all is_bounded_line (zone_lines rulesets infos) ≡ true
        → is_in_offset_range (totals_of set) ≡ true → 300 ≤ n → 300 ≤ m → AreEnough n t → AreEnough m t
        → (total_at (schedule_over n rulesets infos) t ≡ total_at (schedule_over m rulesets infos) t)
        × (span_told (compiled_over n rulesets infos) t ≡ span_told (compiled_over m rulesets infos) t) }
{}

/// What it shows for ever is what it shows over any such number of years.
pub fn shows_over_enough_years()
    ensures { (rulesets : Rulesets) (infos : List ZoneInfo) (set : FixedTimespanSet) (n : ℕ) (t : ℤ) → GoesOn rulesets infos
        → compiled rulesets infos ≡ Ok set → list_all is_bounded_line (zone_lines rulesets infos) ≡ true
        → is_in_offset_range (totals_of set) ≡ true → 300 ≤ n → AreEnough n t
        → (total_for_ever rulesets infos t ≡ total_at (schedule_over n rulesets infos) t)
        × (span_for_ever rulesets infos t ≡ span_told (compiled_over n rulesets infos) t) }
{}

/// An instant brought back by whole cycles to 2101 or later is looked up over any number of years that is enough there: over 702 of
/// them that is every instant from 2101 on.
pub fn brought_back()
    ensures { (rulesets : Rulesets) (infos : List ZoneInfo) (set : FixedTimespanSet) (cycles n : ℕ) (t : ℤ) → GoesOn rulesets infos
        → compiled rulesets infos ≡ Ok set → list_all is_bounded_line (zone_lines rulesets infos) ≡ true
        → is_in_offset_range (totals_of set) ≡ true → IsFrom2101 t → 300 ≤ n → AreEnough n t
        → (total_for_ever rulesets infos (instants_on cycles t) ≡ total_at (schedule_over n rulesets infos) t)
        × (span_for_ever rulesets infos (instants_on cycles t) ≡ span_told (compiled_over n rulesets infos) t) }
{}

/// The years over which an instant is looked up are 300 or more, and lie two years past its own.
pub fn years_are_enough()
    ensures { (t : ℤ) → (300 ≤ years_for t) × AreEnough (years_for t) t }
{}

/// The total is that of what is in force, and 0 where a zone has no schedule.
pub fn total_is_of_span()
    ensures { (rulesets : Rulesets) (infos : List ZoneInfo) (t : ℤ)
        → total_for_ever rulesets infos t ≡ option_map_or total (span_for_ever rulesets infos t) (pos 0) }
{}
