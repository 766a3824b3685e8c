//! What a rule of each year puts in force repeats after 400 years, or 12,622,780,800 seconds.
//!
//! Days are counted in the years -10000 to 10000, so each law names the years for which it holds, by clocks of standard time.
ghost use Rattle.std.specs.Prelude.{◌≡◌, ℤ, pos, neg_ℤ};
ghost use Rattle.zone_spans.specs.Cycle.{seconds_on};
ghost use Rattle.tz_posix.specs.{InForce.{YearlyTime, posix_total}, PosixZones.{Given, GivesByRule, Named}};
ghost use Rattle.tz_tzif.specs.{FooterForce.{FooterZone, held_at, standard_total}, Years.{IsInYears}};

use tz_ever::cycle::days::{days_repeat, months_repeat, weekdays_repeat};

/// What the rule of a POSIX TZ string gives in the years -10000 to 9600 it gives 400 years later: the total, the name and whether
/// daylight saving time is in force.
pub fn strings_repeat()
    ensures total { (standard saving : ℤ) (start end : YearlyTime) (s : ℤ) → IsInYears (neg_ℤ (pos 10_000)) (pos 9_600) standard s
        → posix_total standard saving start end (seconds_on s) ≡ posix_total standard saving start end s }
    ensures given { (standard saving : Named) (start end : YearlyTime) (s : ℤ) (given : Given) → IsInYears (neg_ℤ (pos 10_000)) (pos 9_600) standard.total s
        → GivesByRule standard saving start end s given → GivesByRule standard saving start end (seconds_on s) given }
{
    days_repeat();
    weekdays_repeat();
    months_repeat();
}

/// What a footer puts in force in the years -10000 to 9600 it puts in force 400 years later: the total, the name and the flag.
pub fn footers_repeat()
    ensures { (zone : FooterZone) (s : ℤ) → IsInYears (neg_ℤ (pos 10_000)) (pos 9_600) (standard_total zone) s
        → held_at zone (seconds_on s) ≡ held_at zone s }
{
    days_repeat();
    weekdays_repeat();
    months_repeat();
}
