//! Whether there is a zone in a file, and its footer, found without memory.
ghost use Rattle.std.specs.{Prelude.{◌≡◌, ◌*◌, nat_lt, is_some, length, option_map, MatchOption}, List.{list_all}};
ghost use Rattle.zone_tzif_core.specs.{Check.{passes, times_in}, Denotes.{Says}, Names.{AreNames}, Reading.{joined_in, kinds_in, parts_shown, said_in, time_size, AreCounted}, Shown.{FaultsExactly}, ZoneFiles.{HasFooter}, Zones.{ZoneValue, go_up}};

use crate::kinds::read_record;
use crate::names::name_table;
use crate::parts::{Parts, said_parts, time_at};
use crate::values::ReadFault;

/// Whether the records are kinds.
fn are_kinds<'a>(names: &'a [u8], table: &[Option<&'a str>], count: u32, records: &[u8]) -> bool
    requires records { length records.now ≡ 6 * count }
    requires names { AreNames names.now table.now }
    ensures { result ≡ is_some (kinds_in names.now count records.now) }
{
    for i in 0..count as usize {
        let record = read_record(names, table, &records[6 * i..6 * i + 6]);
        if record.is_none() {
            return false;
        }
    }
    true
}

/// Whether each number is that of a kind.
fn are_numbers(count: u32, numbers: &[u8]) -> bool
    ensures { result ≡ list_all (λ number. nat_lt number count) numbers.now }
{
    numbers.iter().all(|number| (*number as u32) < count)
}

/// Whether so many times strictly rise.
fn do_rise(wide: bool, count: usize, times: &[u8]) -> bool
    requires { length times.now ≡ time_size wide * count }
    ensures { result ≡ go_up (times_in wide count times.now) }
{
    for i in 1..count {
        let rises = time_at(wide, times, i - 1) < time_at(wide, times, i);
        if !rises {
            return false;
        }
    }
    true
}

/// Whether the parts have a value.
fn passes(parts: &Parts) -> bool
    requires { AreCounted (parts_shown parts.now) }
    ensures { result ≡ passes (parts_shown parts.now) }
{
    let table = name_table(parts.names);
    do_rise(parts.wide, parts.numbers.len(), parts.times)
        && parts.kinds >= 1
        && are_numbers(parts.kinds, parts.numbers)
        && are_kinds(parts.names, table.as_slice(), parts.kinds, parts.records)
}

/// The footer of the zone that a file says, as `read_file` reads it, or nothing where the file says none. It takes no memory.
#[tactic(auto, unfolding(crate::specs::Reading::said_in))]
pub fn said_footer(bytes: &[u8]) -> Option<&str>
    ensures value { option_map (λ footer. footer.now) result ≡ option_map (λ zone. zone.footer) (said_in bytes.now) }
    ensures exact { MatchOption result ((zone : ZoneValue) → ¬ (Says bytes.now zone)) (λ footer. HasFooter (Says bytes.now) footer.now) }
{
    let parts = said_parts(bytes)?;
    if passes(&parts) {
        Some(parts.footer)
    } else {
        None
    }
}

/// Want of memory where the parts have a value, and else a refusal.
pub(crate) fn wanting(parts: &Parts) -> ReadFault
    requires { AreCounted (parts_shown parts.now) }
    ensures { FaultsExactly result (joined_in (parts_shown parts.now)) }
{
    if passes(parts) {
        ReadFault::NoMemory
    } else {
        ReadFault::Refused
    }
}
