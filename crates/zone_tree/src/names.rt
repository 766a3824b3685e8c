//! The names of an archive.
ghost use Rattle.std.specs.{Prelude.{◌≡◌, ◌++◌, map as each, is_some, IfOk, OnOk}, FinMap.{get, keys}};
ghost use Rattle.tz_lookup.specs.Databases.{name_shown};
ghost use Rattle.zone_tree.specs.Names.{archive_names, finds_in_table, others};

use std::alloc::{AllocError, Global};
use zone_table::Table;

/// The names of the zones of a table, and the new names of its links, each in byte order.
#[derive(Drop)]
pub(crate) struct Names<'n> {
    pub(crate) zones: &'n [&'n str],
    pub(crate) links: &'n [&'n str],
}

/// Whether the name is a zone's own.
pub(crate) fn is_zone(table: &Table, name: &str) -> bool
    ensures { result ≡ is_some (get table.now.zonesets name.now) }
{
    table.zonesets.get(name).is_some()
}

/// Puts those names at the end that are no zone's own.
fn put_others<'t>(
    table: &Table,
    names: &[&'t str],
    into: &mut Vec<&'t str>,
) -> Result<(), AllocError>
    ensures { OnOk result (each name_shown into.new.items ≡ each name_shown into.old.items
        ++ others (λ name. is_some (get table.now.zonesets name)) (each name_shown names.now)) }
{
    for name in names {
        if !is_zone(table, name) {
            into.push(*name)?;
        }
    }
    Ok(())
}

/// The names of every zone and link in the order of an archive: the zones' own, and then the links', each in byte order.
pub(crate) fn archive_names<'t>(
    alloc: Global,
    table: &Table,
    names: &Names<'t>,
) -> Result<Vec<&'t str>, AllocError>
    requires zones { each name_shown names.now.zones.now ≡ keys table.now.zonesets }
    requires links { each name_shown names.now.links.now ≡ keys table.now.links }
    ensures { IfOk result (λ ordered. each name_shown ordered.items ≡ archive_names (finds_in_table table.now)) }
{
    let mut ordered = Vec::new(alloc);
    ordered.extend_from_slice(names.zones)?;
    put_others(table, names.links, &mut ordered)?;
    Ok(ordered)
}
