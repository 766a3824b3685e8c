//! The hierarchy of names.
ghost use Rattle.std.specs.{Prelude.{◌≡◌, ℕ, List, ◌++◌, IfOk, OnOk, map as each}, Iterator.{YieldsFirstBy, item_count}, List.{flat_map}, List.Sorted.{IsStrictlySortedBy}, Option.{option_map}, Map.Iter.{deref}};
ghost use Rattle.std.specs.FinMap as map;
ghost use Rattle.basics.specs.{InOrder.{in_order}, Keyed.{text_cmp}};
ghost use Rattle.zone_table.specs.{NameTree.{children_in, name_tree, submodule_of, tree_of, time_zone_of}, Shown.{entry_value}, Placed.{placed_cmp, placed_value}};

use crate::table::Table;
use std::alloc::{AllocError, Global};
use std::marker::Model;
use std::vec;

/// What stands under a part of a name. Submodules come before time zones, and each kind is in byte order.
#[derive(Debug, Clone, Copy, PartialEq, Eq, PartialOrd, Ord)]
pub enum Child<'t> {
    /// A further part, which names stand under.
    Submodule(&'t str),
    /// The last part of a name.
    TimeZone(&'t str),
}

/// A part of a name and what stands under it.
#[derive(Debug, Drop, PartialEq)]
pub struct TableStructureEntry<'t> {
    /// The part.
    pub name: &'t str,
    /// What stands under it, in order and each once.
    pub children: Vec<Child<'t>>,
}

/// A hierarchy of names. Contracts see its entries in order.
#[derive(Drop)]
pub struct TableStructure<'t> {
    entries: Vec<TableStructureEntry<'t>>,
}

impl<'t> Model for TableStructure<'t> {
    ghost use Rattle.std.specs.Prelude.{List, map as each};
    ghost use Rattle.zone_table.specs.{NameTree.{EntryValue}, Shown.{entry_value}};

    ghost Value = { List EntryValue };

    ghost view = { λ structure. each entry_value structure.entries.items };
}

/// The entries of a hierarchy of names one by one. Contracts see those that are left.
#[derive(Drop)]
pub struct Iter<'t> {
    entries: vec::IntoIter<TableStructureEntry<'t>>,
}

impl<'t> Model for Iter<'t> {
    ghost use Rattle.std.specs.{Prelude.{List, map as each}, Vec.Iter.{into_iter_items}};
    ghost use Rattle.zone_table.specs.{NameTree.{EntryValue}, Shown.{entry_value}};

    ghost Value = { List EntryValue };

    ghost view = { λ iter. each entry_value (into_iter_items iter.entries) };
}

impl<'t> Iterator for Iter<'t> {
    type Item = TableStructureEntry<'t>;

    ghost next_gives = { YieldsFirstBy entry_value (λ left. left) };

    ghost remaining = { item_count (λ left. left) };

    fn next(&mut self) -> Option<TableStructureEntry<'t>> {
        self.entries.next()
    }
}

impl<'t> IntoIterator for TableStructure<'t> {
    type Item = TableStructureEntry<'t>;

    type IntoIter = Iter<'t>;

    ghost into_iter_gives = { λ structure iter. iter ≡ structure };

    /// The entries in order, each once. It takes no memory.
    fn into_iter(self) -> Iter<'t> {
        Iter {
            entries: self.entries.into_iter(),
        }
    }
}

/// What has names in a hierarchy, with slashes between their parts.
pub trait Structure {
    /// The names.
    ghost names: { Self → List (List ℕ) };

    /// The hierarchy of the names. The part of a name before its last slash gets what follows as a time zone, and where
    /// that part has a slash, its front up to the first one gets the rest as a submodule. Entries come in byte order of
    /// their names, each once.
    ///
    /// # Errors
    ///
    /// Want of memory alone.
    fn structure(&self, alloc: Global) -> Result<TableStructure<'_>, AllocError>
        ensures value { IfOk result (λ structure. structure ≡ name_tree (names self.now)) }
        ensures in_order { IfOk result (λ structure. IsStrictlySortedBy text_cmp (each (λ entry. entry.name) structure)) };
}

/// A child beside the part that it stands under.
type Placed<'t> = (&'t str, Child<'t>);

/// A name as a time zone under its part before the last slash, or none where it has no slash.
fn time_zone(name: &str) -> Option<Placed<'_>>
    ensures { option_map placed_value result ≡ time_zone_of name.now }
{
    let (part, zone) = name.rsplit_once('/')?;
    Some((part, Child::TimeZone(zone)))
}

/// A part as a submodule under its front up to the first slash, or none where it has no slash.
fn submodule(part: &str) -> Option<Placed<'_>>
    ensures { option_map placed_value result ≡ submodule_of part.now }
{
    let (front, rest) = part.split_once('/')?;
    Some((front, Child::Submodule(rest)))
}

/// Adds the children that a name gives.
fn place<'t>(placed: &mut Vec<Placed<'t>>, name: &'t str) -> Result<(), AllocError>
    ensures { OnOk result (each placed_value placed.new.items ≡ each placed_value placed.old.items ++ children_in name.now) }
{
    if let Some(zone) = time_zone(name) {
        placed.push(zone)?;
        if let Some(submodule) = submodule(zone.0) {
            placed.push(submodule)?;
        }
    }
    Ok(())
}

/// The children that the names give.
fn place_all<'t>(alloc: Global, names: &[&'t str]) -> Result<Vec<Placed<'t>>, AllocError>
    ensures { IfOk result (λ placed. each placed_value placed.items ≡ flat_map children_in (each deref names.now)) }
{
    let mut placed = Vec::new(alloc);
    for name in names {
        place(&mut placed, name)?;
    }
    Ok(placed)
}

/// Brings children in order, and leaves each once.
fn put_in_order(placed: &mut Vec<Placed<'_>>) -> Result<(), AllocError>
    ensures { OnOk result (each placed_value placed.new.items ≡ in_order placed_cmp (each placed_value placed.old.items)) }
{
    placed.sort()?;
    placed.dedup();
    Ok(())
}

/// The entry of a part with these children.
fn entry_of<'t>(
    alloc: Global,
    name: &'t str,
    placed: &[Placed<'t>],
) -> Result<TableStructureEntry<'t>, AllocError>
    ensures { IfOk result (λ entry. entry_value entry ≡ record { name = name.now; children = each (λ pair. pair.1) (each placed_value placed.now) }) }
{
    let children = placed.iter().map(|placed| placed.1).collect(alloc)?;
    Ok(TableStructureEntry { name, children })
}

/// The entries of children in order, one for each run of children with one part.
fn entries_of<'t>(
    alloc: Global,
    placed: &[Placed<'t>],
) -> Result<Vec<TableStructureEntry<'t>>, AllocError>
    requires { IsStrictlySortedBy placed_cmp (each placed_value placed.now) }
    ensures { IfOk result (λ entries. each entry_value entries.items ≡ tree_of (each placed_value placed.now)) }
{
    let mut entries = Vec::new(alloc);
    for run in placed.chunk_by(|a, b| a.0 == b.0) {
        entries.push(entry_of(alloc, run[0].0, run)?)?;
    }
    Ok(entries)
}

impl Structure for Table {
    ghost names = { λ table. map.keys table.zonesets ++ map.keys table.links };

    fn structure(&self, alloc: Global) -> Result<TableStructure<'_>, AllocError> {
        let mut names = self.zonesets.keys_in_any_order(alloc)?;
        let links = self.links.keys_in_any_order(alloc)?;
        names.extend_from_slice(links.as_slice())?;
        let mut placed = place_all(alloc, names.as_slice())?;
        put_in_order(&mut placed)?;
        Ok(TableStructure {
            entries: entries_of(alloc, placed.as_slice())?,
        })
    }
}
