//! The distinct kinds and names of a zone.
ghost use Rattle.std.specs.{Prelude.{◌≡◌, ℕ, [], ◌∷◌, ◌++◌, map, bytes_eq, length, IfOk, OnOk, string_bytes}, List.{list_any}};
ghost use Rattle.zone_tzif_core.specs.{Tzif.{is_same, added, each_once, kinds_of, names_of}, Collected.{AreFew, Collects}, Shown.{kind_shown, kinds_seen, names_seen, zone_shown}};

use crate::values::{Kind, TzifZone, WriteFault};
use std::alloc::{AllocError, Global};

/// Whether two kinds are one.
pub(crate) fn is_same(a: &Kind, b: &Kind) -> bool
    ensures { result ≡ is_same (kind_shown a.now) (kind_shown b.now) }
{
    a.utoff == b.utoff && a.is_dst == b.is_dst && a.name.as_str() == b.name.as_str()
}

/// Whether the kind is among the kinds.
fn is_among(kinds: &[&Kind], kind: &Kind) -> bool
    ensures { result ≡ list_any (λ other. is_same (kind_shown kind.now) (kind_shown other.now)) kinds.now }
{
    kinds.iter().any(|other| is_same(kind, other))
}

/// Adds a kind where it is not among the kinds.
#[tactic(auto, using(crate::proofs::DistinctLemmas::any_seen))]
fn add_kind<'a>(kinds: &mut Vec<&'a Kind>, kind: &'a Kind) -> Result<(), AllocError>
    ensures { OnOk result (kinds_seen kinds.new.items ≡ added is_same (kinds_seen kinds.old.items) (kind_shown kind.now)) }
{
    let among = is_among(kinds.as_slice(), kind);
    if among {
        return Ok(());
    }
    kinds.push(kind)?;
    Ok(())
}

/// Whether there are at most 256 kinds: more don't fit a file.
fn check_few(kinds: &[&Kind]) -> Result<(), WriteFault>
    ensures { AreFew result (length (kinds_seen kinds.now)) }
{
    if kinds.len() <= 256 {
        Ok(())
    } else {
        Err(WriteFault::Types)
    }
}

/// The distinct kinds in order of first use. They are refused as soon as there are more than 256, so that each change is
/// compared with 256 kinds at most.
pub(crate) fn distinct_kinds(alloc: Global, zone: &TzifZone) -> Result<Vec<&Kind>, WriteFault>
    ensures { Collects (λ kinds. kinds_seen kinds.items) result (kinds_of (zone_shown zone.now)) }
{
    let mut kinds = Vec::new(alloc);
    add_kind(&mut kinds, &zone.first)?;
    for shift in zone.rest.as_slice() {
        add_kind(&mut kinds, &shift.1)?;
        check_few(kinds.as_slice())?;
    }
    Ok(kinds)
}

/// Whether the name is among the names.
fn is_named(names: &[&str], name: &str) -> bool
    ensures { result ≡ list_any (λ other. bytes_eq name.now other.now) names.now }
{
    names.iter().any(|other| name == *other)
}

/// Adds a name where it is not among the names.
#[tactic(auto, using(crate::proofs::DistinctLemmas::any_seen))]
fn add_name<'a>(names: &mut Vec<&'a str>, name: &'a str) -> Result<(), AllocError>
    ensures { OnOk result (names_seen names.new.items ≡ added bytes_eq (names_seen names.old.items) name.now) }
{
    let among = is_named(names.as_slice(), name);
    if among {
        return Ok(());
    }
    names.push(name)?;
    Ok(())
}

/// The distinct names in the order of the kinds.
pub(crate) fn distinct_names<'a>(
    alloc: Global,
    kinds: &[&'a Kind],
) -> Result<Vec<&'a str>, AllocError>
    ensures { IfOk result (λ names. names_seen names.items ≡ names_of (kinds_seen kinds.now)) }
{
    let mut names = Vec::new(alloc);
    for kind in kinds {
        add_name(&mut names, kind.name.as_str())?;
    }
    Ok(names)
}
