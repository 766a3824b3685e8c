//! Spans of time in which an offset is in force, and those that are left of a list where nothing changes.
ghost use Rattle.std.specs.{Prelude.{◌≡◌, IfOk, IsTrue, ◌<◌, ◌≤◌, ◌+◌, ◌+ℤ◌, length, All, reverse, []}, List.{list_all}};
ghost use Rattle.zone_spans.specs.{Bounds.{is_small, is_bounded_span, is_bounded_entry, is_bounded, IsSmallEntry}, Entries.{total, Entry}, Collapse.{is_same_span, is_no_later, kept_of, without_first, collapsed, LocalEndsRise, EntryTimesDontFall}};
ghost use Rattle.zone_spans.specs.Places.{IsRespanned, IsMoved, IsStep};

use crate::entries::Entries;
use basics::{Items, Text};
use std::alloc::{AllocError, Global};

/// 2^40 seconds: the furthest time of an entry from 1970-01-01 00:00 UTC, before it and after, and the greatest size of an
/// offset and of a saving.
pub const GREATEST_SECOND: i64 = 1 << 40;

/// What is in force for a time: an offset, a saving and a name.
#[derive(Debug, Drop, PartialEq, Eq)]
pub struct FixedTimespan {
    /// The standard offset, in seconds east of UTC.
    pub utc_offset: i64,
    /// The saving, in seconds, that is added to it.
    pub dst_offset: i64,
    /// The abbreviation.
    pub name: Text,
}

/// What is in force at each instant.
#[derive(Debug, Drop, PartialEq, Eq)]
pub struct FixedTimespanSet {
    /// What is in force before the first entry.
    pub first: FixedTimespan,
    /// Entries in order: a time in seconds from 1970-01-01 00:00 UTC, and what is in force from then on.
    pub rest: Items<(i64, FixedTimespan)>,
}

impl FixedTimespan {
    /// The offset and the saving together, in seconds east of UTC. Each is at most 2^40 in size.
    pub fn total_offset(&self) -> i64
        requires { IsTrue (is_bounded_span self.now) }
        ensures { result ≡ total self.now }
    {
        self.utc_offset + self.dst_offset
    }

    /// A copy.
    pub(crate) fn copy(&self, alloc: Global) -> Result<FixedTimespan, AllocError>
        ensures { IfOk result (λ copy. copy ≡ self.now) }
    {
        Ok(FixedTimespan {
            utc_offset: self.utc_offset,
            dst_offset: self.dst_offset,
            name: Text::new(alloc, self.name.as_str())?,
        })
    }

    fn is_bounded(&self) -> bool
        ensures { result ≡ is_bounded_span self.now }
    {
        is_small(self.utc_offset) && is_small(self.dst_offset)
    }
}

impl FixedTimespanSet {
    /// Whether every time, offset and saving is at most 2^40 in size.
    pub fn is_bounded(&self) -> bool
        ensures { result ≡ is_bounded self.now }
    {
        self.first.is_bounded() && are_bounded(self.rest.as_slice())
    }
}

fn are_bounded(entries: &[(i64, FixedTimespan)]) -> bool
    ensures { result ≡ list_all is_bounded_entry entries.now }
{
    entries.iter().all(is_bounded_entry)
}

fn is_bounded_entry(entry: &(i64, FixedTimespan)) -> bool
    ensures { result ≡ is_bounded_entry entry.now }
{
    is_small(entry.0) && entry.1.is_bounded()
}

/// Whether the number is at most 2^40 in size.
fn is_small(number: i64) -> bool
    ensures { result ≡ is_small number }
{
    -GREATEST_SECOND <= number && number <= GREATEST_SECOND
}

pub(crate) fn is_same_span(a: &FixedTimespan, b: &FixedTimespan) -> bool
    ensures { result ≡ is_same_span a.now b.now }
{
    a.utc_offset == b.utc_offset && a.dst_offset == b.dst_offset && a.name == b.name
}

/// The local time of the entry's instant where `before` is in force.
fn local_time(entry: &(i64, FixedTimespan), before: &(i64, FixedTimespan)) -> i64
    requires entry { IsSmallEntry entry.now }
    requires before { IsSmallEntry before.now }
    ensures { result ≡ entry.now.0 +ℤ total before.now.1 }
{
    entry.0 + before.1.total_offset()
}

/// Whether the entry comes no later by its local time than `last`, which began when `before` was in force.
pub(crate) fn is_no_later(
    entry: &(i64, FixedTimespan),
    last: &(i64, FixedTimespan),
    before: &(i64, FixedTimespan),
) -> bool
    requires entry { IsSmallEntry entry.now }
    requires last { IsSmallEntry last.now }
    requires before { IsSmallEntry before.now }
    ensures { result ≡ is_no_later entry.now last.now before.now }
{
    local_time(entry, last) <= local_time(last, before)
}

/// The entry at `place` takes the span of that at `from`, and keeps its time.
fn respan(rest: &mut Entries, place: usize, from: usize)
    requires order { place < from }
    requires within { from < length rest.old }
    requires bounded { All IsSmallEntry rest.old }
    ensures put { IsRespanned rest.old rest.new place from }
    ensures bounded { All IsSmallEntry rest.new }
{
    let time = rest[place].0;
    rest.swap(place, from);
    rest[place].0 = time;
}

/// The entry at `from` moves to `place`.
fn keep(rest: &mut Entries, place: usize, from: usize)
    requires order { place ≤ from }
    requires within { from < length rest.old }
    requires bounded { All IsSmallEntry rest.old }
    ensures put { IsMoved rest.old rest.new place from }
    ensures bounded { All IsSmallEntry rest.new }
{
    rest.swap(place, from);
}

/// Of the first `kept` entries and that at `from`: how many are kept.
fn step(rest: &mut Entries, kept: usize, from: usize) -> usize
    requires order { kept ≤ from }
    requires within { from < length rest.old }
    requires count { from < usize.MAX }
    requires bounded { All IsSmallEntry rest.old }
    ensures step { IsStep rest.old rest.new kept from result }
    ensures bounded { All IsSmallEntry rest.new }
    ensures count { result ≤ from + 1 }
{
    if kept >= 2 && is_no_later(&rest[from], &rest[kept - 1], &rest[kept - 2]) {
        respan(rest, kept - 1, from);
        return kept;
    }
    if kept >= 1 && is_same_span(&rest[from].1, &rest[kept - 1].1) {
        return kept;
    }
    keep(rest, kept, from);
    kept + 1
}

/// Leaves of the entries what the collapse keeps.
pub(crate) fn keep_kept(rest: &mut Entries)
    requires { IsTrue (list_all is_bounded_entry rest.old) }
    ensures kept { rest.new ≡ reverse (kept_of [] rest.old) }
    ensures bounded { IsTrue (list_all is_bounded_entry rest.new) }
{
    let mut kept = 0;
    for i in 0..rest.len() {
        kept = step(rest, kept, i);
    }
    rest.truncate(kept);
}

/// Drops the first entry where it says what holds before it.
fn drop_repeat(rest: &mut Entries, first: &FixedTimespan)
    requires { IsTrue (list_all is_bounded_entry rest.old) }
    ensures dropped { rest.new ≡ without_first first.now rest.old }
    ensures bounded { IsTrue (list_all is_bounded_entry rest.new) }
{
    if !rest.is_empty() && is_same_span(&rest[0].1, first) {
        rest.remove(0);
    }
}

/// Goes through the entries from the left and keeps some, as `parse-zoneinfo`'s `optimise` does.
///
/// Where two or more are kept and the entry comes no later by its local time than the last of them, each by the offset in
/// force before it, that one gets the entry's span and keeps its time. Else an entry with the span of the last kept is
/// dropped, and any other is kept. At last the first is dropped if it has the span that holds before all. Then the local
/// ends of the spans after the first strictly rise. Each time, offset and saving is at most 2^40 in size, as `is_bounded`
/// tells. It takes no memory.
#[tactic(auto, unfolding(crate::specs::Collapse::collapsed))]
pub fn collapse(set: &mut FixedTimespanSet)
    requires { IsTrue (is_bounded set.old) }
    ensures first { set.new.first ≡ set.old.first }
    ensures rest { set.new.rest ≡ collapsed set.old.first set.old.rest }
    ensures bounded { IsTrue (is_bounded set.new) }
    ensures law { LocalEndsRise set.new.rest }
    ensures times { EntryTimesDontFall set.old.rest → EntryTimesDontFall set.new.rest }
{
    keep_kept(&mut set.rest);
    drop_repeat(&mut set.rest, &set.first);
}
