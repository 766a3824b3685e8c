//! The file of a value.
ghost use Rattle.std.specs.{Prelude.{◌≡◌, ℕ, ℤ, true, position, slice_index_or, string_bytes, IfSome, ◌≤◌, ◌+◌, ◌^◌, ◌<◌, [], ◌∷◌, ◌++◌, length, map, OnOk, IfOk, FitsSigned}, Int.{w64}, List.{flat_map, list_all, list_any, position_or_len}};
ghost use Rattle.zone_tzif_core.specs.{Numbers.{count_bytes, four_bytes, eight_bytes}, Tzif.{header_bytes, kind_number, name_bytes, name_place, record_bytes, is_same, TimesFit}, Zones.{KindValue}, Shown.{kind_shown, kinds_seen, names_seen, shifts_shown}};

use crate::distinct::is_same;
use crate::values::{Kind, Version};
use std::alloc::AllocError;

/// Puts the four bytes of a number at the end.
#[tactic(auto, unfolding(crate::specs::Numbers::count_bytes))]
fn put_count(into: &mut Vec<u8>, number: u32) -> Result<(), AllocError>
    ensures { OnOk result (into.new.items ≡ into.old.items ++ count_bytes number) }
{
    into.extend_from_slice(&number.to_be_bytes())
}

/// Puts the four bytes of a signed number at the end.
#[tactic(auto, unfolding(crate::specs::Numbers::four_bytes))]
fn put_four(into: &mut Vec<u8>, number: i32) -> Result<(), AllocError>
    ensures { OnOk result (into.new.items ≡ into.old.items ++ four_bytes number) }
{
    into.extend_from_slice(&number.to_be_bytes())
}

/// Puts the eight bytes of a signed number at the end.
#[tactic(auto, unfolding(crate::specs::Numbers::eight_bytes))]
fn put_eight(into: &mut Vec<u8>, number: i64) -> Result<(), AllocError>
    ensures { OnOk result (into.new.items ≡ into.old.items ++ eight_bytes number) }
{
    into.extend_from_slice(&number.to_be_bytes())
}

/// Puts a header of a version with these three counts at the end. What is reserved is zero, and so are the counts of flags and leap seconds.
#[tactic(auto, unfolding(crate::specs::Tzif::header_bytes))]
pub(crate) fn put_header(
    into: &mut Vec<u8>,
    version: Version,
    times: u32,
    kinds: u32,
    chars: u32,
) -> Result<(), AllocError>
    ensures { OnOk result (into.new.items ≡ into.old.items ++ header_bytes version times kinds chars) }
{
    into.extend_from_slice(b"TZif".as_slice())?;
    into.push(version.byte())?;
    into.extend_from_slice(&[0; 27])?;
    put_count(into, times)?;
    put_count(into, kinds)?;
    put_count(into, chars)
}

/// The time of a change.
fn time_of(shift: &(i64, Kind)) -> i64
    ensures time { result ≡ shift.now.0 }
    ensures range { FitsSigned w64 shift.now.0 }
{
    shift.0
}

/// Puts the times at the end.
pub(crate) fn put_times(into: &mut Vec<u8>, shifts: &[(i64, Kind)]) -> Result<(), AllocError>
    ensures bytes { OnOk result (into.new.items ≡ into.old.items ++ flat_map (λ shift. eight_bytes shift.0) (shifts_shown shifts.now)) }
    ensures range { OnOk result (TimesFit (shifts_shown shifts.now)) }
{
    for shift in shifts {
        put_eight(into, time_of(shift))?;
    }
    Ok(())
}

/// Puts each name and a zero at the end.
#[tactic(auto, unfolding(crate::specs::Tzif::name_bytes))]
pub(crate) fn put_names(into: &mut Vec<u8>, names: &[&str]) -> Result<(), AllocError>
    ensures { OnOk result (into.new.items ≡ into.old.items ++ name_bytes (names_seen names.now)) }
{
    for name in names {
        put_name(into, name)?;
    }
    Ok(())
}

/// Puts a name and a zero at the end.
#[tactic(auto, using(std::proofs::Common::append_assoc))]
fn put_name(into: &mut Vec<u8>, name: &str) -> Result<(), AllocError>
    ensures { OnOk result (into.new.items ≡ into.old.items ++ (name.now ++ 0 ∷ [])) }
{
    into.extend_from_slice(name.as_bytes())?;
    into.push(0)?;
    Ok(())
}

/// Where the kind is among the kinds.
fn kind_place(kinds: &[&Kind], kind: &Kind) -> Option<usize>
    ensures place { result ≡ position (λ other. is_same (kind_shown kind.now) (kind_shown other.now)) kinds.now }
    ensures within { IfSome result (λ i. i < length kinds.now) }
{
    kinds.iter().position(|other| is_same(kind, other))
}

/// The number of a kind that is among the kinds.
fn kind_number(kinds: &[&Kind], kind: &Kind) -> u8
    requires few { length kinds.now ≤ 256 }
    requires among { list_any (is_same (kind_shown kind.now)) (kinds_seen kinds.now) ≡ true }
    ensures { result ≡ kind_number (kinds_seen kinds.now) (kind_shown kind.now) }
{
    match kind_place(kinds, kind) {
        Some(number) => number as u8,
        None => 0,
    }
}

/// Puts the kinds' numbers at the end.
pub(crate) fn put_numbers(
    into: &mut Vec<u8>,
    kinds: &[&Kind],
    shifts: &[(i64, Kind)],
) -> Result<(), AllocError>
    requires few { length kinds.now ≤ 256 }
    requires among { (k : ℕ) (d : ℤ × KindValue) → k < length (shifts_shown shifts.now)
        → list_any (is_same (slice_index_or (shifts_shown shifts.now) k d).1) (kinds_seen kinds.now) ≡ true }
    ensures { OnOk result (into.new.items
        ≡ into.old.items ++ flat_map (λ shift. kind_number (kinds_seen kinds.now) shift.1 ∷ []) (shifts_shown shifts.now)) }
{
    for shift in shifts {
        into.push(kind_number(kinds, &shift.1))?;
    }
    Ok(())
}

/// Where a name begins among the names' bytes.
fn name_place(names: &[&str], name: &str) -> usize
    requires { length (name_bytes (names_seen names.now)) ≤ 256 }
    ensures { result ≡ name_place (names_seen names.now) name.now }
{
    let mut place = 0;
    for other in names {
        if name == *other {
            return place;
        }
        place += other.len() + 1;
    }
    place
}

/// Puts the record of a kind at the end.
#[tactic(auto, using(std::proofs::Common::append_assoc), unfolding(crate::specs::Tzif::record_bytes))]
fn put_record(into: &mut Vec<u8>, names: &[&str], kind: &Kind) -> Result<(), AllocError>
    requires few { length (name_bytes (names_seen names.now)) ≤ 256 }
    requires named { name_place (names_seen names.now) (string_bytes kind.now.name) < 256 }
    ensures { OnOk result (into.new.items ≡ into.old.items ++ record_bytes (names_seen names.now) (kind_shown kind.now)) }
{
    let place = name_place(names, kind.name.as_str());
    put_four(into, kind.utoff)?;
    into.push(u8::from(kind.is_dst))?;
    into.push(place as u8)?;
    Ok(())
}

/// Puts the records of the kinds at the end.
pub(crate) fn put_records(
    into: &mut Vec<u8>,
    names: &[&str],
    kinds: &[&Kind],
) -> Result<(), AllocError>
    requires few { length (name_bytes (names_seen names.now)) ≤ 256 }
    requires named { (k : ℕ) (d : KindValue) → k < length (kinds_seen kinds.now)
        → name_place (names_seen names.now) (slice_index_or (kinds_seen kinds.now) k d).name < 256 }
    ensures { OnOk result (into.new.items
        ≡ into.old.items ++ flat_map (record_bytes (names_seen names.now)) (kinds_seen kinds.now)) }
{
    for kind in kinds {
        put_record(into, names, kind)?;
    }
    Ok(())
}
