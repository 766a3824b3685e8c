//! Zones of two yearly rules beside the strings that say the same.
ghost use Rattle.std.specs.{Prelude.{◌≡◌, ◌∷◌, [], IfOk, IfErr, Ok, Some, is_some, true}, FinMap.{get}};
ghost use Rattle.civil_base.specs.{DateTimes.{instant}, Instants.{seconds_of}};
ghost use Rattle.zone_spans.specs.{Compiled.{compiled}, Lines.{Rulesets}};
ghost use Rattle.zone_table.specs.{BoundedTables.{IsBoundedTable}, Resolved.{resolved_in}};
ghost use Rattle.tz_lookup.specs.{Compiles.{compiled_in, spans_of, IsZoneFault}, Sets.{schedule_of, IsAccepted}};
ghost use Rattle.tz_posix.specs.{Agreement.{IsCovered, RuledValue, SaysTheSame, TwoRuleZone, value_of}, Parses.{IsInRange}};

use crate::checks::holds;
use crate::fixtures::{at, database_of, table_of};
use crate::rows::{field, number};
use civil_base::{OffsetDateTime, UtcOffset};
use std::alloc::Global;
use std::process::Abort;
use tz_lookup::{Database, FixedTimespanSet, Tz, ZoneFault, compile_zone, is_orderly};
use tz_posix::PosixTz;
use tz_posix::laws::{agreed_offset, one_reading};
use zone_table::Table;

/// Three pairs of rules of the tz database, each with a zone of one line; Moldova's as it was in 2025.
const ZONES: &[u8] = b"\
Rule US 2007 max - Mar Sun>=8 2:00 1:00 D
Rule US 2007 max - Nov Sun>=1 2:00 0 S
Rule LH 2008 max - Apr Sun>=1 2:00 0 -
Rule LH 2008 max - Oct Sun>=1 2:00 0:30 -
Rule Moldova 1997 max - Mar lastSun 2:00 1:00 S
Rule Moldova 1997 max - Oct lastSun 3:00 0 -
Zone America/New_York -5:00 US E%sT
Zone Australia/Lord_Howe 10:30 LH +1030/+11
Zone Europe/Chisinau 2:00 Moldova EE%sT
";

/// A zone, a string, a second from 1970-01-01 00:00:00 UTC and the offset that both give it, in seconds, or that they give two:
/// what `zic` with Python's zoneinfo and what `date` with the string give. Lord Howe's first start is at 1223134200; long before
/// it the zone has standard time, and the string daylight saving time.
const OFFSETS: &str = "\
America/New_York EST5EDT4,M3.2.0,M11.1.0 1710053999 -18000
America/New_York EST5EDT4,M3.2.0,M11.1.0 1710054000 -14400
America/New_York EST5EDT4,M3.2.0,M11.1.0 1730613599 -14400
America/New_York EST5EDT4,M3.2.0,M11.1.0 1730613600 -18000
Australia/Lord_Howe <+1030>-10:30<+11>-11,M10.1.0,M4.1.0 1200000000 two
Australia/Lord_Howe <+1030>-10:30<+11>-11,M10.1.0,M4.1.0 1223134199 37800
Australia/Lord_Howe <+1030>-10:30<+11>-11,M10.1.0,M4.1.0 1223134200 39600
Australia/Lord_Howe <+1030>-10:30<+11>-11,M10.1.0,M4.1.0 1712415599 39600
Australia/Lord_Howe <+1030>-10:30<+11>-11,M10.1.0,M4.1.0 1712415600 37800
Australia/Lord_Howe <+1030>-10:30<+11>-11,M10.1.0,M4.1.0 1728142199 37800
Australia/Lord_Howe <+1030>-10:30<+11>-11,M10.1.0,M4.1.0 1728142200 39600
Europe/Chisinau EET-2EEST-3,M3.5.0,M10.5.0/3 1711843199 7200
Europe/Chisinau EET-2EEST-3,M3.5.0,M10.5.0/3 1711843200 10800
Europe/Chisinau EET-2EEST-3,M3.5.0,M10.5.0/3 1729987199 10800
Europe/Chisinau EET-2EEST-3,M3.5.0,M10.5.0/3 1729987200 7200
";

/// The offset that the zone of a set and a text both give a date-time: there is one where the set is compiled of a line of two
/// yearly rules and the text says the same.
fn agreed_by(
    set: &FixedTimespanSet,
    text: &str,
    zones: &Database,
    date_time: &OffsetDateTime,
) -> Option<UtcOffset>
    requires { IsAccepted (schedule_of set.now) }
    ensures { (rulesets : Rulesets) (pair : TwoRuleZone) (q : RuledValue) → SaysTheSame rulesets pair q
        → compiled rulesets (pair.line ∷ []) ≡ Ok (spans_of set.now) → IsInRange text.now (value_of q)
        → IsCovered pair (seconds_of (instant date_time.now)) → is_some result ≡ true }
{
    // What the text is parsed as is the value that it spells, since it spells one alone.
    one_reading();
    let zone = Tz::marked(set, is_orderly(set));
    match PosixTz::parse(text, zones) {
        Ok(posix) => agreed_offset(&zone, &posix, date_time),
        Err(_) => None,
    }
}

/// The offset that the zone of a name in a table and a text both give a date-time. From the lines of the table and the letters of
/// the text alone: where the zone is one line, ruled by two yearly rules, and the text says the same, there is one.
fn agreed_in_table(
    alloc: Global,
    table: &Table,
    name: &str,
    text: &str,
    zones: &Database,
    date_time: &OffsetDateTime,
) -> Result<Option<UtcOffset>, ZoneFault>
    requires { IsBoundedTable table.now }
    ensures err { IfErr result (IsZoneFault (compiled_in table.now name.now)) }
    ensures agreed { (pair : TwoRuleZone) (q : RuledValue) → SaysTheSame (get table.now.rulesets) pair q
        → resolved_in table.now name.now ≡ Some (pair.line ∷ []) → IsInRange text.now (value_of q)
        → IsCovered pair (seconds_of (instant date_time.now)) → IfOk result (λ offset. is_some offset ≡ true) }
{
    match compile_zone(alloc, table, name) {
        Ok(set) => Ok(agreed_by(&set, text, zones, date_time)),
        Err(fault) => Err(fault),
    }
}

/// Whether the answer of a row is given.
fn is_given(rt: &impl Abort, alloc: Global, table: &Table, zones: &Database, row: &str) -> bool
    requires { IsBoundedTable table.now }
{
    let mut fields = row.split(' ');
    let name = field(rt, &mut fields);
    let text = field(rt, &mut fields);
    let date_time = at(rt, number(rt, &mut fields));
    let wanted = field(rt, &mut fields).parse::<i32>().ok();
    match agreed_in_table(alloc, table, name, text, zones, &date_time) {
        Ok(offset) => seconds(offset) == wanted,
        Err(_) => false,
    }
}

fn seconds(offset: Option<UtcOffset>) -> Option<i32> {
    Some(offset?.whole_seconds())
}

/// Asserts each row.
fn expect_given(rt: &impl Abort, alloc: Global, table: &Table, zones: &Database)
    requires { IsBoundedTable table.now }
{
    for row in OFFSETS.lines() {
        holds(rt, row, is_given(rt, alloc, table, zones, row));
    }
}

#[test]
fn zones_agree_with_their_strings(rt: HostRuntime) {
    let table = table_of(&rt, rt.alloc(), ZONES);
    expect_given(&rt, rt.alloc(), &table, &database_of(&rt, rt.alloc(), b""));
}
