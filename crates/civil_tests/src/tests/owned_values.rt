//! Texts, lists and maps that own what is in them: each call with ample memory.
ghost use Rattle.std.specs.{Prelude.{◌≡◌, ◌==◌, not, length}, List.{list_all}};
ghost use Rattle.std.specs.FinMap as map;

use crate::tests::checks::holds;
use basics::{Items, Text, TextMap};
use std::alloc::Global;
use std::process::Abort;

/// Whether no list of the map is empty.
fn has_no_empty_list(lists: &TextMap<Items<u8>>) -> bool
    ensures { result ≡ list_all (λ items. not (length items == 0)) (map.values lists.now) }
{
    lists.values().all(|items| !items.as_slice().is_empty())
}

/// A list of two items and one of one.
fn lists_of(rt: &impl Abort, alloc: Global) -> TextMap<Items<u8>> {
    let mut lists = TextMap::new(alloc);
    for (name, item) in &[("b", 1), ("a", 2), ("b", 3)] {
        lists.append(alloc, name, *item).expect(rt, "memory");
    }
    lists
}

/// Whether the lists are those, by name and by item.
fn are_lists(lists: &TextMap<Items<u8>>) -> bool {
    let Some(list) = lists.get("b") else {
        return false;
    };
    (list.as_slice() == [1, 3].as_slice()) & has_no_empty_list(lists) & !lists.contains_key("c")
}

/// Whether those are the names of the lists.
fn have_names(rt: &impl Abort, alloc: Global, lists: &TextMap<Items<u8>>) -> bool {
    let found = lists.keys(alloc).expect(rt, "memory");
    found.as_slice() == ["a", "b"].as_slice()
}

#[test]
fn a_map_keeps_lists(rt: HostRuntime) {
    let lists = lists_of(&rt, rt.alloc());
    holds(&rt, "lists", are_lists(&lists));
    let again = TextMap::from_hash_map(lists.into_hash_map());
    holds(&rt, "names", have_names(&rt, rt.alloc(), &again));
}

/// A map of one text.
fn targets_of(rt: &impl Abort, alloc: Global) -> TextMap<Text> {
    let string = String::from_str(alloc, "Europe/Madrid").expect(rt, "memory");
    let mut targets = TextMap::new(alloc);
    targets
        .insert(alloc, "Test/M", Text::from_string(string))
        .expect(rt, "memory");
    targets
}

/// Whether the map lends that text.
fn is_lent(targets: &TextMap<Text>) -> bool {
    match targets.get("Test/M") {
        Some(found) => found.as_str() == "Europe/Madrid",
        None => false,
    }
}

/// Whether a text is the string that was put in.
fn is_kept(rt: &impl Abort, alloc: Global) -> bool {
    let text = Text::new(alloc, "abc").expect(rt, "memory");
    text.into_string().as_str() == "abc"
}

#[test]
fn a_map_lends_its_texts(rt: HostRuntime) {
    let is_lent = is_lent(&targets_of(&rt, rt.alloc()));
    holds(&rt, "lent", is_lent);
    holds(&rt, "kept", is_kept(&rt, rt.alloc()));
}

/// The items of a slice.
fn items_of(rt: &impl Abort, alloc: Global, items: &[(u8, char)]) -> Items<(u8, char)>
    ensures { result ≡ items.now }
{
    Items::from_vec(items.to_vec(alloc).expect(rt, "memory"))
}

fn are_sorted(rt: &impl Abort, alloc: Global) -> bool {
    let shuffled = [(3, 'a'), (1, 'b'), (3, 'c'), (2, 'd'), (1, 'e')];
    let mut items = items_of(rt, alloc, &shuffled);
    items.sort_by_key(|item| item.0).expect(rt, "memory");
    let sorted = [(1, 'b'), (1, 'e'), (2, 'd'), (3, 'a'), (3, 'c')];
    items.into_vec().as_slice() == sorted.as_slice()
}

/// Of four items, which become two.
fn are_moved(items: &mut Items<(u8, char)>) -> bool
    requires { length items.old ≡ 4 }
{
    items.swap(0, 3);
    let (removed, replaced) = (items.remove(1), items.replace(1, (7, 'x')));
    items.truncate(2);
    (removed == (2, 'b'))
        & (replaced == (3, 'c'))
        & (items.len() == 2)
        & !items.is_empty()
        & items.get(2).is_none()
        & (items.as_slice() == [(4, 'd'), (7, 'x')].as_slice())
}

#[test]
fn items_are_sorted_moved_and_cut(rt: HostRuntime) {
    holds(&rt, "sorted", are_sorted(&rt, rt.alloc()));
    let mut items = items_of(&rt, rt.alloc(), &[(1, 'a'), (2, 'b'), (3, 'c'), (4, 'd')]);
    holds(&rt, "moved", are_moved(&mut items));
}
