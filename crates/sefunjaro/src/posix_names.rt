//! Whether POSIX has a place for the names in a string, and for its times.
ghost use Rattle.std.specs.Prelude.{◌≡◌, IsTrue, option_map};
ghost use Rattle.tz_posix.specs.{Shown.{dst_shown, tz_shown}, Spells.{Spells}, Values.{TzValue}};
ghost use Rattle.sefunjaro.specs.PosixNames.{has_posix_names, has_posix_times, is_posix_rule, is_posix_string, is_posix_time, is_saving_named, is_saving_timed, IsSpelled};

use tz_posix::laws::one_reading;
use tz_posix::{Dst, Rule, Time, Tz, entry};
use zone_tail::parts::is_posix_name;

/// Whether each name in a POSIX TZ string is one that POSIX has a place for: three bytes or more, ASCII letters, digits, `+` and `-`.
/// The grammar here takes others too, as `<CD>-2` and `<A_B>-5`, which the GNU C library reads as UTC.
pub fn has_posix_names(text: &str) -> bool
    ensures { (value : TzValue) → Spells text.now value → result ≡ has_posix_names value }
{
    one_reading();
    match entry(text) {
        Some(tz) => are_posix_names(&tz),
        None => false,
    }
}

/// Whether a text is a string that POSIX has a place for: read by the grammar of such strings, with names as
/// [`has_posix_names`] wants them, and times of its rule of 24 hours at most. A footer for ever may be none, as `XST3XDT,M3.5.4/26,M10.5.4/26`.
pub fn is_posix_string(text: &str) -> bool
    ensures told { (value : TzValue) → Spells text.now value → result ≡ is_posix_string value }
    ensures read { IsTrue result → IsSpelled text.now }
{
    one_reading();
    match entry(text) {
        Some(tz) => is_posix_value(&tz),
        None => false,
    }
}

/// The same of what a string is read as.
fn is_posix_value(tz: &Tz<'_>) -> bool
    ensures { result ≡ is_posix_string (tz_shown tz.now) }
{
    are_posix_names(tz) && are_posix_times(tz)
}

/// Whether the times of its rule have 24 hours at most.
fn are_posix_times(tz: &Tz<'_>) -> bool
    ensures { result ≡ has_posix_times (tz_shown tz.now) }
{
    match tz {
        Tz::Short(_) => true,
        Tz::Expanded { std: _, dst } => is_saving_timed(dst),
    }
}

fn is_saving_timed(saving: &Option<Dst<'_>>) -> bool
    ensures { result ≡ is_saving_timed (option_map dst_shown saving.now) }
{
    match saving {
        Some(saving) => is_posix_rule(&saving.rule),
        None => true,
    }
}

fn is_posix_rule(rule: &Option<Rule>) -> bool
    ensures { result ≡ is_posix_rule rule.now }
{
    match rule {
        Some(rule) => is_posix_time(&rule.start.1) && is_posix_time(&rule.end.1),
        None => true,
    }
}

fn is_posix_time(time: &Option<Time>) -> bool
    ensures { result ≡ is_posix_time time.now }
{
    match time {
        Some(time) => time.hh <= 24,
        None => true,
    }
}

/// The same of the names.
fn are_posix_names(tz: &Tz<'_>) -> bool
    ensures { result ≡ has_posix_names (tz_shown tz.now) }
{
    match tz {
        Tz::Short(_) => false,
        Tz::Expanded { std, dst } => is_posix_name(std.name) && is_saving_named(dst),
    }
}

/// Whether the name of daylight saving time, where there is any, is such a name.
fn is_saving_named(saving: &Option<Dst<'_>>) -> bool
    ensures { result ≡ is_saving_named (option_map dst_shown saving.now) }
{
    match saving {
        Some(saving) => is_posix_name(saving.name),
        None => true,
    }
}
