//! Days, weekdays and the moments of rules repeat after 400 years.
ghost use Rattle.std.specs.Prelude.{◌≡◌, ℕ, ℤ, pos, neg_ℤ, ◌≤ℤ◌};
ghost use Rattle.basics.specs.{Days.{day, days_in_month}, Weekdays.{weekday_of}};
ghost use Rattle.zone_spans.specs.Cycle.{days_on, next_cycle, seconds_on};
ghost use Rattle.zone_table.specs.{Moments.{moment}, declared.rule.RuleInfo.{RuleInfo}};

/// From the year -11999 on each date comes again 400 years, or 146,097 days, later.
pub fn days_repeat()
    ensures { (y : ℤ) (m d : ℕ) → neg_ℤ (pos 11_999) ≤ℤ y → day (next_cycle y) m d ≡ days_on (day y m d) }
{}

/// Each month has as many days then, from the same year on.
pub fn months_repeat()
    ensures { (y : ℤ) (m : ℕ) → neg_ℤ (pos 11_999) ≤ℤ y → days_in_month (next_cycle y) m ≡ days_in_month y m }
{}

/// A date falls on the same weekday then: 146,097 days are 20,871 weeks.
pub fn weekdays_repeat()
    ensures { (k : ℤ) → weekday_of (days_on k) ≡ weekday_of k }
{}

/// From the year 0 on a rule fires at the same second of each cycle, whatever its day and its clock: 12,622,780,800 seconds later.
pub fn moments_repeat()
    ensures { (rule : RuleInfo) (y offset saving : ℤ) → pos 0 ≤ℤ y
        → moment rule (next_cycle y) offset saving ≡ seconds_on (moment rule y offset saving) }
{}
