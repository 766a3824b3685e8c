//! The schedule over a number of years, and rules that are settled by 2099.
ghost use Rattle.std.specs.Prelude.{◌≡◌, ℕ, suc, ◌+◌, ◌≤◌, true, List, length, None, ℤ, pos, ◌≤ℤ◌};
ghost use Rattle.zone_spans.specs.{Cycle.{fired_on, next_cycle}, Settled.{HaveClock, are_settled, lasting}, Compiled.{compiled, compiled_over}, Firings.{firings_of_years, year_firings}, Lines.{Rulesets}, Years.{most_years}};
ghost use Rattle.zone_table.specs.{declared.{rule.RuleInfo.{RuleInfo}, zone.ZoneInfo.{ZoneInfo}}, declared.time.TimeType.{TimeType}};

/// Over the 300 years that a line expands without an end, a zone's spans are those that `zone_spans` compiles, and so is its fault.
pub fn over_as_many_years()
    ensures { (rulesets : Rulesets) (infos : List ZoneInfo) → compiled_over most_years rulesets infos ≡ compiled rulesets infos }
{}

/// What settled rules fire in a year from 2100 on they fire 400 years later, begun with the same saving, and leave the same saving.
pub fn year_firings_repeat()
    ensures { (y offset saving : ℤ) (rules : List RuleInfo) → are_settled rules ≡ true → pos 2100 ≤ℤ y
        → year_firings (next_cycle y) offset None saving rules ≡ fired_on (year_firings y offset None saving rules) }
{}

/// Where the rules that last are all of one clock, and there is one, the saving after the end of 2100, and of each later year, is that
/// after the year 400 years on. With rules of two clocks it may depend on the saving before the year, so there it has to be tested.
pub fn saving_repeats_by_one_clock()
    ensures { (clock : TimeType) (place : ℕ) (offset : ℤ) (rules : List RuleInfo) → are_settled rules ≡ true → 300 ≤ place
        → HaveClock clock (lasting rules) → 1 ≤ length (lasting rules)
        → (firings_of_years offset None rules (suc place + 400)).1 ≡ (firings_of_years offset None rules (suc place)).1 }
{}
