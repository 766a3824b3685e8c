//! Names that others stand in.
ghost use Rattle.std.specs.{Prelude.{◌≡◌, nat_eq, slice_get, false, map as each, IfOk}, Option.{option_map_or}, Ordering.{is_lt}, List.{list_any, starts_with}};
ghost use Rattle.basics.specs.{InOrderLaws.{RisesStrictly}, Keyed.{text_cmp}};
ghost use Rattle.tz_lookup.specs.Databases.{name_shown};
ghost use Rattle.zone_tree.specs.{Entries.{is_taken}, Shown.{all_names}};

use crate::names::Names;
use std::alloc::{AllocError, Global};

/// Whether a name comes before another one, by bytes.
fn is_below(name: &str, other: &str) -> bool
    ensures { result ≡ is_lt (text_cmp name.now other.now) }
{
    name < other
}

/// Whether a name begins with that front.
fn begins(name: &str, front: &str) -> bool
    ensures { result ≡ starts_with nat_eq name.now front.now }
{
    name.as_bytes().starts_with(front.as_bytes())
}

/// Whether the name at a place begins with that front.
fn begins_at(names: &[&str], place: usize, front: &str) -> bool
    ensures { result ≡ option_map_or (λ name. starts_with nat_eq (name_shown name) front.now) (slice_get names.now place) false }
{
    match names.get(place) {
        Some(name) => begins(name, front),
        None => false,
    }
}

/// Whether some name begins with that front, of names in byte order.
fn has_front(names: &[&str], front: &str) -> bool
    requires { RisesStrictly text_cmp (each name_shown names.now) }
    ensures { result ≡ list_any (λ other. starts_with nat_eq other front.now) (each name_shown names.now) }
{
    let from = names.partition_point(
        |name: &&str| -> bool
            ensures { result ≡ is_lt (text_cmp name.now.now front.entry.now) }
        { is_below(name, front) },
    );
    begins_at(names, from, front)
}

/// Whether some name of zones or links begins with that front.
fn is_front(names: &Names<'_>, front: &str) -> bool
    requires zones { RisesStrictly text_cmp (each name_shown names.now.zones.now) }
    requires links { RisesStrictly text_cmp (each name_shown names.now.links.now) }
    ensures { result ≡ list_any (λ other. starts_with nat_eq other front.now) (all_names names.now) }
{
    let in_zones = has_front(names.zones, front);
    let in_links = has_front(names.links, front);
    in_zones | in_links
}

/// Whether another name stands in this one as in a folder, or it is that of the release's file or stands in that one.
pub(crate) fn is_taken(alloc: Global, names: &Names<'_>, name: &str) -> Result<bool, AllocError>
    requires zones { RisesStrictly text_cmp (each name_shown names.now.zones.now) }
    requires links { RisesStrictly text_cmp (each name_shown names.now.links.now) }
    ensures { IfOk result (λ taken. taken ≡ is_taken (all_names names.now) name.now) }
{
    let mut front = String::from_str(alloc, name)?;
    front.push('/')?;
    let has_others = is_front(names, front.as_str());
    let is_reserved = begins(front.as_str(), "+VERSION/");
    Ok(has_others | is_reserved)
}
