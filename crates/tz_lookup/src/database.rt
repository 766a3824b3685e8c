//! Every zone of a table, found by its name or by a part of it.
ghost use Rattle.std.specs.{Prelude.{◌≡◌, ℕ, List, map as each, filter, reverse, is_some, option_map, true, IfOk, IfErr, OnOk, IsTrue, ◌↔◌}, BTreeSet.{insert_key}, List.{find, list_all}, Str.{bytes_eq}};
ghost use Rattle.basics.specs.{InOrder.{in_order as sorted_names}, InOrderLaws.{RisesStrictly}, Keyed.{text_cmp}};
ghost use Rattle.zone_table.specs.BoundedTables.{IsBoundedTable};
ghost use Rattle.tz_lookup.specs.{Compiles.{compiled_in}, Sets.{schedule_of, IsAccepted, IsOrderlyZone}, Zones.{set_of}, Databases.{names_of, resolves, found_in, found_as, first_refused, zone_refusal, IsDatabaseFault, has_part, name_shown}};

use crate::compile::{ZoneFault, compile_zone};
use crate::set::{FixedTimespanSet, is_orderly};
use crate::time_zone::TimeZone;
use crate::tz::Tz;
use basics::{Items, Text};
use std::alloc::{AllocError, Global};
use std::cmp::Ordering;
use std::collections::BTreeSet;
use std::marker::Model;
use std::slice;
use zone_spans::SpanFault;
use zone_table::Table;

/// Why a table has no database, with the name that is the first in byte order to be refused.
#[derive(Debug, Drop, PartialEq, Eq)]
pub enum DatabaseFault {
    /// The zone of that name has no schedule; never for want of memory.
    Schedule(Text, SpanFault),
    /// Some span of the zone of that name has an offset of 26 hours or more in size.
    OffsetRange(Text),
    /// Memory ran out.
    NoMemory,
}

impl From<AllocError> for DatabaseFault {
    ghost use Rattle.std.specs.Prelude.{◌≡◌};
    ghost use Rattle.tz_lookup.specs.declared.database.DatabaseFault.TheVariants.{NoMemory};

    ghost from_gives = { λ _ fault. fault ≡ NoMemory };

    fn from(_: AllocError) -> DatabaseFault {
        DatabaseFault::NoMemory
    }
}

/// A set that can be looked up, and whether it is orderly.
#[derive(Debug, Drop)]
struct Known {
    set: FixedTimespanSet,
    orderly: bool,
    ghost accepted: { IsAccepted (schedule_of set) },
    ghost marked: { IsTrue orderly ↔ IsOrderlyZone (schedule_of set) },
}

impl Known {
    fn new(set: FixedTimespanSet) -> Known
        requires { IsAccepted (schedule_of set) }
        ensures { result.set ≡ set }
    {
        let orderly = is_orderly(&set);
        Known { set, orderly }
    }

    fn zone(&self) -> Tz<'_>
        ensures { set_of result ≡ self.now.set }
    {
        Tz::marked(&self.set, self.orderly)
    }

    /// Whether the name comes before a name, is it or comes after it, by bytes.
    fn order(&self, name: &str) -> Ordering
        ensures { result ≡ text_cmp self.now.set.name name.now }
    {
        self.set.name.as_str().cmp(name)
    }
}

/// Every zone of a table, in byte order of the names. A link is a zone of its own, under its own name.
#[derive(Drop)]
pub struct Database {
    zones: Items<Known>,
    ghost sorted: { RisesStrictly text_cmp (each (λ set. set.name) (each (λ known. known.set) zones)) },
}

impl Model for Database {
    ghost use Rattle.std.specs.Prelude.{List, map as each};
    ghost use Rattle.tz_lookup.specs.declared.set.FixedTimespanSet.{FixedTimespanSet};

    ghost Value = { List FixedTimespanSet };

    ghost view = { λ database. each (λ known. known.set) database.zones };
}

impl Database {
    /// Compiles every zone and link of a table. The table is bounded.
    ///
    /// # Errors
    ///
    /// The first name in byte order whose zone has no schedule or an offset of 26 hours or more, with its first fault; or `NoMemory`.
    pub fn build(alloc: Global, table: &Table) -> Result<Database, DatabaseFault>
        requires { IsBoundedTable table.now }
        ensures ok { IfOk result (λ database. each found_as database ≡ each (found_in table.now) (names_of table.now)) }
        ensures err { IfErr result (IsDatabaseFault (first_refused (zone_refusal table.now) (names_of table.now))) }
    {
        let names = names_in_order(alloc, table)?;
        let zones = know_all(alloc, table, &names)?;
        Ok(Database { zones })
    }

    /// The zone of that name, or none where there is no such name.
    pub fn get_by_name(&self, name: &str) -> Option<Tz<'_>>
        ensures { option_map set_of result ≡ find (λ set. bytes_eq name.now set.name) self.now }
    {
        let found = self
            .zones
            .as_slice()
            .binary_search_by(|known| known.order(name));
        match found {
            Ok(index) => Some(self.zones.as_slice()[index].zone()),
            Err(_) => None,
        }
    }

    /// The zones whose name has that part, in byte order of their names.
    ///
    /// # Errors
    ///
    /// Want of memory alone.
    pub fn find_by_name(&self, alloc: Global, name: &str) -> Result<Vec<Tz<'_>>, AllocError>
        ensures { IfOk result (λ found. each set_of found.items ≡ filter (λ set. has_part name.now set.name) self.now) }
    {
        let found = with_part(alloc, self.zones.as_slice(), name)?;
        Ok(found)
    }

    /// The first zone in byte order whose name has that part, or none where no name has it. It takes no memory.
    pub fn find_first_by_name(&self, name: &str) -> Option<Tz<'_>>
        ensures { option_map set_of result ≡ find (λ set. has_part name.now set.name) self.now }
    {
        for zone in self.iter() {
            if has_part(zone.name(), name) {
                return Some(zone);
            }
        }
        None
    }

    /// Every zone, in byte order of the names. It takes no memory.
    pub fn iter(&self) -> DatabaseIter<'_>
        ensures { result ≡ self.now }
    {
        DatabaseIter {
            zones: self.zones.as_slice().iter(),
        }
    }
}

/// The zones of a database one after another. Contracts see the sets that are left.
#[derive(Drop)]
pub struct DatabaseIter<'a> {
    zones: slice::Iter<'a, Known>,
}

impl<'a> Model for DatabaseIter<'a> {
    ghost use Rattle.std.specs.{Prelude.{List, map as each}, Slice.Iter.{iter_rest}};
    ghost use Rattle.tz_lookup.specs.declared.set.FixedTimespanSet.{FixedTimespanSet};

    ghost Value = { List FixedTimespanSet };

    ghost view = { λ iter. each (λ known. known.set) (iter_rest iter.zones) };
}

impl<'a> Iterator for DatabaseIter<'a> {
    type Item = Tz<'a>;

    ghost use Rattle.std.specs.Iterator.{YieldsFirstBy, item_count};
    ghost use Rattle.tz_lookup.specs.Zones.{set_of};

    ghost next_gives = { YieldsFirstBy set_of (λ left. left) };

    ghost remaining = { item_count (λ left. left) };

    fn next(&mut self) -> Option<Tz<'a>> {
        match self.zones.next() {
            None => None,
            Some(known) => Some(known.zone()),
        }
    }
}

/// Every name of a table that finds a zone, in byte order, each once.
///
/// # Errors
///
/// Want of memory alone.
pub fn names_in_order(alloc: Global, table: &Table) -> Result<BTreeSet<&str>, AllocError>
    ensures { IfOk result (λ names. each name_shown names.keys ≡ names_of table.now) }
{
    let mut all = table.zonesets.keys_in_any_order(alloc)?;
    let links = table.links.keys_in_any_order(alloc)?;
    all.extend_from_slice(links.as_slice())?;
    let names = in_order(alloc, table, all.as_slice())?;
    Ok(names)
}

/// Those of some names that find a zone, in byte order, each once.
fn in_order<'t>(
    alloc: Global,
    table: &Table,
    all: &[&'t str],
) -> Result<BTreeSet<&'t str>, AllocError>
    ensures { IfOk result (λ names. each name_shown names.keys ≡ sorted_names text_cmp (reverse (filter (resolves table.now) (each name_shown all.now)))) }
{
    let mut names = BTreeSet::new(alloc);
    for name in all {
        if table.get_zoneset(name).is_some() {
            insert(&mut names, name)?;
        }
    }
    Ok(names)
}

/// The zones whose name has that part, in order.
fn with_part<'a>(alloc: Global, zones: &'a [Known], part: &str) -> Result<Vec<Tz<'a>>, AllocError>
    ensures { IfOk result (λ found. each set_of found.items ≡ filter (λ set. has_part part.now set.name) (each (λ known. known.set) zones.now)) }
{
    let mut found = Vec::new(alloc);
    for known in zones {
        if has_part(known.set.name.as_str(), part) {
            found.push(known.zone())?;
        }
    }
    Ok(found)
}

/// Whether the part stands somewhere in the text.
fn has_part(text: &str, part: &str) -> bool
    ensures { result ≡ has_part part.now text.now }
{
    text.contains(part)
}

/// Puts a name at its place, where it isn't there.
fn insert<'t>(names: &mut BTreeSet<&'t str>, name: &'t str) -> Result<(), AllocError>
    ensures { OnOk result (each name_shown names.new.keys ≡ insert_key text_cmp (each name_shown names.old.keys) name.now) }
{
    names.insert(name)?;
    Ok(())
}

/// The zones that the names find, in order.
fn know_all(
    alloc: Global,
    table: &Table,
    names: &BTreeSet<&str>,
) -> Result<Items<Known>, DatabaseFault>
    requires bounded { IsBoundedTable table.now }
    requires found { list_all (resolves table.now) (each name_shown names.now.keys) ≡ true }
    ensures ok { IfOk result (λ zones. each (λ known. found_as known.set) zones ≡ each (found_in table.now) (each name_shown names.now.keys)) }
    ensures err { IfErr result (IsDatabaseFault (first_refused (zone_refusal table.now) (each name_shown names.now.keys))) }
{
    let mut zones = Items::new(alloc);
    for name in names.iter() {
        zones.push(know(alloc, table, name)?)?;
    }
    Ok(zones)
}

/// The zone that a name finds.
fn know(alloc: Global, table: &Table, name: &str) -> Result<Known, DatabaseFault>
    requires bounded { IsBoundedTable table.now }
    requires found { resolves table.now name.now ≡ true }
    ensures ok { IfOk result (λ known. found_as known.set ≡ found_in table.now name.now) }
    ensures err { IfErr result (IsDatabaseFault (option_map (λ fault. (name.now, fault)) (zone_refusal table.now name.now))) }
{
    match compile_zone(alloc, table, name) {
        Ok(set) => Ok(Known::new(set)),
        Err(ZoneFault::Schedule(fault)) => Err(DatabaseFault::Schedule(
            Text::new(alloc, name)?,
            fault,
        )),
        Err(ZoneFault::OffsetRange) => Err(DatabaseFault::OffsetRange(Text::new(alloc, name)?)),
        Err(ZoneFault::UnknownZone) => unreachable!(),
        Err(ZoneFault::NoMemory) => Err(DatabaseFault::NoMemory),
    }
}
