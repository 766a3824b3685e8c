//! The entry of a name.
ghost use Rattle.std.specs.{Prelude.{◌≡◌, map as each, is_some, IfErr, OnOk}, FinMap.{get, keys}};
ghost use Rattle.basics.specs.{InOrderLaws.{RisesStrictly}, Keyed.{text_cmp}};
ghost use Rattle.tz_lookup.specs.Databases.{name_shown};
ghost use Rattle.zone_tree.specs.{ArchiveEntries.{content_shown}, Entries.{link_content, fitting, entry_by, entry_with, entry_of, release_entry}, Names.{finds_by_table}, Shown.{all_names}, Told.{IsPut, IsWhy}};

use crate::archive::{Content, EntryFault, entry_fault, put_entry};
use crate::files::ZoneFiles;
use crate::folder::is_taken;
use crate::names::{Names, is_zone};
use crate::refusal::{NameFault, Why};
use std::alloc::Global;
use zone_table::Table;

/// The name of the file that says a source's release, as compiled trees of distributions have it.
pub(crate) const VERSION_NAME: &str = "+VERSION";

/// Puts an entry at the end, if it can be said.
fn put_fitting(
    alloc: Global,
    name: &str,
    content: Content<'_>,
    into: &mut Vec<u8>,
) -> Result<(), NameFault>
    ensures ok { OnOk result (IsPut into.old.items into.new.items (fitting name.now (content_shown content.entry))) }
    ensures err { IfErr result (IsWhy (fitting name.now (content_shown content.entry))) }
{
    match entry_fault(name.as_bytes(), content) {
        None => {
            put_entry(alloc, into, name.as_bytes(), content)?;
            Ok(())
        }
        Some(EntryFault::Name) => Err(NameFault::Refused(Why::Name)),
        Some(EntryFault::Target) => Err(NameFault::Refused(Why::Name)),
        Some(EntryFault::Size) => Err(NameFault::Refused(Why::Size)),
    }
}

/// Puts an entry at the end, if it can be said among these names.
fn put_said(
    alloc: Global,
    names: &Names<'_>,
    name: &str,
    content: Content<'_>,
    into: &mut Vec<u8>,
) -> Result<(), NameFault>
    requires zones { RisesStrictly text_cmp (each name_shown names.now.zones.now) }
    requires links { RisesStrictly text_cmp (each name_shown names.now.links.now) }
    ensures ok { OnOk result (IsPut into.old.items into.new.items (entry_with (all_names names.now) name.now (content_shown content.entry))) }
    ensures err { IfErr result (IsWhy (entry_with (all_names names.now) name.now (content_shown content.entry))) }
{
    if is_taken(alloc, names, name)? {
        return Err(NameFault::Refused(Why::Name));
    }
    put_fitting(alloc, name, content, into)
}

/// Puts the entry of a zone at the end.
fn put_zone<F: ZoneFiles>(
    alloc: Global,
    files: &F,
    names: &Names<'_>,
    name: &str,
    into: &mut Vec<u8>,
) -> Result<(), NameFault>
    requires ready { F.ready files.now }
    requires zones { RisesStrictly text_cmp (each name_shown names.now.zones.now) }
    requires links { RisesStrictly text_cmp (each name_shown names.now.links.now) }
    ensures ok { OnOk result (IsPut into.old.items into.new.items
        (entry_by (all_names names.now) name.now (F.content files.now name.now))) }
    ensures err { IfErr result (IsWhy (entry_by (all_names names.now) name.now (F.content files.now name.now))) }
{
    let file = files.file(alloc, name)?;
    put_said(alloc, names, name, Content::File(file.as_slice()), into)?;
    Ok(())
}

/// Puts the entry of a link at the end.
fn put_link(
    alloc: Global,
    table: &Table,
    names: &Names<'_>,
    name: &str,
    into: &mut Vec<u8>,
) -> Result<(), NameFault>
    requires zones { RisesStrictly text_cmp (each name_shown names.now.zones.now) }
    requires links { RisesStrictly text_cmp (each name_shown names.now.links.now) }
    ensures ok { OnOk result (IsPut into.old.items into.new.items
        (entry_by (all_names names.now) name.now (link_content (λ zone. is_some (get table.now.zonesets zone)) (get table.now.links name.now)))) }
    ensures err { IfErr result (IsWhy
        (entry_by (all_names names.now) name.now (link_content (λ zone. is_some (get table.now.zonesets zone)) (get table.now.links name.now)))) }
{
    let Some(target) = table.links.get(name) else {
        return Err(NameFault::Refused(Why::Name));
    };
    if !is_zone(table, target.as_str()) {
        return Err(NameFault::Refused(Why::Link));
    }
    put_said(
        alloc,
        names,
        name,
        Content::Link(target.as_str().as_bytes()),
        into,
    )?;
    Ok(())
}

/// Puts the entry of a name at the end.
#[tactic(auto, unfolding(crate::specs::Entries::entry_of))]
pub(crate) fn put_name<F: ZoneFiles>(
    alloc: Global,
    table: &Table,
    files: &F,
    names: &Names<'_>,
    name: &str,
    into: &mut Vec<u8>,
) -> Result<(), NameFault>
    requires ready { F.ready files.now }
    requires zones { each name_shown names.now.zones.now ≡ keys table.now.zonesets }
    requires links { each name_shown names.now.links.now ≡ keys table.now.links }
    requires zones_rise { RisesStrictly text_cmp (each name_shown names.now.zones.now) }
    requires links_rise { RisesStrictly text_cmp (each name_shown names.now.links.now) }
    ensures ok { OnOk result (IsPut into.old.items into.new.items (entry_of (finds_by_table table.now (F.content files.now)) name.now)) }
    ensures err { IfErr result (IsWhy (entry_of (finds_by_table table.now (F.content files.now)) name.now)) }
{
    if is_zone(table, name) {
        put_zone(alloc, files, names, name, into)
    } else {
        put_link(alloc, table, names, name, into)
    }
}

/// Puts the file that says a release at the end.
pub(crate) fn put_release(alloc: Global, release: &str, into: &mut Vec<u8>) -> Result<(), NameFault>
    ensures ok { OnOk result (IsPut into.old.items into.new.items (release_entry release.now)) }
    ensures err { IfErr result (IsWhy (release_entry release.now)) }
{
    let mut line = Vec::new(alloc);
    line.extend_from_slice(release.as_bytes())?;
    line.extend_from_slice(b"\n")?;
    put_fitting(alloc, VERSION_NAME, Content::File(line.as_slice()), into)?;
    Ok(())
}
