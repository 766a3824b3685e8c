//! Zones that requests name, each opened once and kept.
ghost use Rattle.std.specs.Prelude.{◌≡◌, ◌++◌, ℤ, pos, ◌≤ℤ◌, ◌<ℤ◌, false, IfErr, IfOk, IsTrue, Ok, OnErr, []};
ghost use Rattle.civil_base.specs.Ranges.{far_seconds, IsOffset};
ghost use Rattle.zone_table.specs.{BoundedTables.{IsBoundedTable}, Resolved.{resolved_in}};
ghost use Rattle.zone_answers.specs.{Asked.{asked}, Due.{answer_text, shown_at}, Faults.{has_dates, zone_refusal}, Found.{Reading, found_in_table}, Requests.{IsSpelled}, SameDays.{IsAdded, IsSameDay, IsThroughout, front_of, last_instant}, Told.{TellsReading}};

use crate::error::ReadingError;
use crate::request::Request;
use crate::same_day::SameDay;
use basics::{Items, TextMap};
use std::alloc::{AllocError, Global};
use tz_lookup::Stretch;
use zone_table::Table;

/// A zone as it is kept from request to request.
pub trait OpenedZone: Drop {
    /// How the lines of a zone are read: the total in force at each instant, or why it can't be asked.
    ghost read: { Reading };

    /// The total in force at each instant, in nanoseconds from 1970-01-01 00:00:00 UTC.
    ghost total_at: { Self → ℤ → ℤ };

    /// The second from which is in force what is at a second: that of the last entry up to it, or at which its cycle begins.
    ghost begins_at: { Self → ℤ → ℤ };

    /// The second up to which it is: that of the next entry, or at which its cycle ends.
    ghost ends_at: { Self → ℤ → ℤ };

    /// The zone that a name finds in a table, which is bounded.
    ///
    /// # Errors
    ///
    /// Why the zone that the nth request names can't be asked, or want of memory.
    fn open(alloc: Global, table: &Table, name: &str, number: usize) -> Result<Self, ReadingError>
        requires { IsBoundedTable table.now }
        ensures ok { IfOk result (λ zone. found_in_table read table.now name.now ≡ Ok (total_at zone)) }
        ensures err { IfErr result (TellsReading (zone_refusal number (found_in_table read table.now name.now))) };

    /// The seconds around one throughout which one total is in force, from where it begins up to where it ends. They count from
    /// 1970-01-01 00:00:00 UTC, and it is one of them.
    fn stretch_at(&self, second: i64) -> Stretch
        requires { second ≤ℤ pos far_seconds }
        ensures throughout { IsThroughout (total_at self.now) result }
        ensures from { result.from ≡ begins_at self.now second }
        ensures until { result.until ≡ ends_at self.now second }
        ensures begun { result.from ≤ℤ second }
        ensures lasts { second <ℤ result.until };

    /// Adds the line of a request of the zone to a text, without its LF. It adds none and answers no where the UTC date or the local
    /// date of an asked instant lies outside the years -9999 to 9999.
    ///
    /// # Errors
    ///
    /// Want of memory alone. The text is as before then.
    fn show(&self, request: &Request<'_>, text: &mut Vec<u8>) -> Result<bool, AllocError>
        ensures dates { IfOk result (λ has. has ≡ has_dates (total_at self.now) (asked request.now)) }
        ensures line { IfOk result (λ has. IsTrue has →
            text.new.items ≡ text.old.items ++ answer_text (shown_at (total_at self.now) (asked request.now))) }
        ensures none { IfOk result (λ has. has ≡ false → text.new.items ≡ text.old.items) }
        ensures err { OnErr result (text.new.items ≡ text.old.items) }
        ensures range { (t : ℤ) → IsOffset (total_at self.now t) };

    /// The same, where the text is at hand that names the request's local time.
    ///
    /// # Errors
    ///
    /// Want of memory alone. The text is as before then.
    fn show_spelled(
        &self,
        request: &Request<'_>,
        spelled: &[u8],
        text: &mut Vec<u8>,
    ) -> Result<bool, AllocError>
        requires { IsSpelled (asked request.now) spelled.now }
        ensures dates { IfOk result (λ has. has ≡ has_dates (total_at self.now) (asked request.now)) }
        ensures line { IfOk result (λ has. IsTrue has →
            text.new.items ≡ text.old.items ++ answer_text (shown_at (total_at self.now) (asked request.now))) }
        ensures none { IfOk result (λ has. has ≡ false → text.new.items ≡ text.old.items) }
        ensures err { OnErr result (text.new.items ≡ text.old.items) }
        ensures range { (t : ℤ) → IsOffset (total_at self.now t) }
    {
        self.show(request, text)
    }
}

/// The zones that were asked for so far, found again by their names. Names that lead to one zone's lines share it.
#[derive(Drop)]
pub struct Zones<'t, 'r, Z> {
    alloc: Global,
    table: &'t Table,
    opened: Items<Z>,
    // where the zone of a name stands among them
    places: TextMap<usize>,
    last: Option<Last<'r>>,
    // the line of the request that was answered last by itself, and those that it answers too
    pub(crate) before: &'r [u8],
    day: Option<SameDay>,
}

/// The name that was asked for last, and where its zone stands.
#[derive(Clone, Copy)]
struct Last<'r> {
    name: &'r str,
    place: usize,
}

impl<'t, 'r, Z: OpenedZone> Zones<'t, 'r, Z> {
    ghost use Rattle.std.specs.Prelude.{◌≡◌, ◌<◌, IfErr, IfOk, IfSome, Some, length, slice_get, take};
    ghost use Rattle.zone_table.specs.BoundedTables.{IsBoundedTable};
    ghost use Rattle.zone_answers.specs.{Faults.{zone_refusal}, Found.{found_in_table}, Opened.{table_of, AreOpened, IsOpened, IsPlaced}, Told.{TellsReading}};

    /// No zone of this table was asked for yet.
    pub fn new(alloc: Global, table: &'t Table) -> Zones<'t, 'r, Z>
        requires { IsBoundedTable table.now }
        ensures table { table_of result ≡ table.now }
        ensures opened { AreOpened Z.OpenedZone result }
    {
        Zones {
            alloc,
            table,
            opened: Items::new(alloc),
            places: TextMap::new(alloc),
            last: None,
            before: &[],
            day: None,
        }
    }

    /// Where the zone stands that the nth request names. It is opened where it wasn't asked for yet.
    pub(crate) fn place_of(&mut self, name: &'r str, number: usize) -> Result<usize, ReadingError>
        requires { AreOpened Z.OpenedZone self.old }
        ensures placed { IfOk result (IsPlaced Z.OpenedZone (table_of self.old) self.new.opened name.now) }
        ensures err { IfErr result (TellsReading (zone_refusal number (found_in_table Z.read (table_of self.old) name.now))) }
        ensures same { table_of self.new ≡ table_of self.old }
        ensures opened { AreOpened Z.OpenedZone self.new }
    {
        if let Some(place) = self.last_place(name) {
            return Ok(place);
        }
        let place = self.place_for(name, number)?;
        self.last = Some(Last { name, place });
        Ok(place)
    }

    /// Where the zone stands that the nth request names, whose text needn't live on. It is opened where it wasn't asked for yet.
    /// Whatever the answer, those that were opened stand where they did.
    ///
    /// # Errors
    ///
    /// Why the zone can't be asked, or want of memory.
    pub fn place_for(&mut self, name: &str, number: usize) -> Result<usize, ReadingError>
        requires { AreOpened Z.OpenedZone self.old }
        ensures placed { IfOk result (IsPlaced Z.OpenedZone (table_of self.old) self.new.opened name.now) }
        ensures err { IfErr result (TellsReading (zone_refusal number (found_in_table Z.read (table_of self.old) name.now))) }
        ensures same { table_of self.new ≡ table_of self.old }
        ensures opened { AreOpened Z.OpenedZone self.new }
        ensures kept { take (length self.old.opened) self.new.opened ≡ self.old.opened }
    {
        match self.places.get(name) {
            Some(place) => Ok(*place),
            None => self.open(name, number),
        }
    }

    /// Where the zone of the name stands, if it was asked for last.
    fn last_place(&self, name: &str) -> Option<usize>
        requires { AreOpened Z.OpenedZone self.now }
        ensures { IfSome result (IsPlaced Z.OpenedZone (table_of self.now) self.now.opened name.now) }
    {
        let last = self.last?;
        if last.name == name {
            Some(last.place)
        } else {
            None
        }
    }

    /// Puts the line of a request into the text, in place of what is there, if it asks what differs from the one before in the time of a
    /// day alone.
    pub(crate) fn show_again(&self, request: &[u8], text: &mut Vec<u8>) -> Result<bool, AllocError>
        requires { AreOpened Z.OpenedZone self.now }
        ensures { IfOk result (λ has. IsTrue has → IsAdded (found_in_table Z.read (table_of self.now)) last_instant request.now [] text.new.items) }
    {
        match &self.day {
            Some(day) => {
                text.clear();
                day.add(self.before, request, text)
            }
            None => Ok(false),
        }
    }

    /// Keeps the text of a request that was answered by itself, and those of the same day.
    pub(crate) fn keep(&mut self, text: &'r str, day: Option<SameDay>)
        requires opened { AreOpened Z.OpenedZone self.old }
        requires day { IfSome day (IsSameDay (found_in_table Z.read (table_of self.old)) last_instant (front_of text.now)) }
        ensures same { table_of self.new ≡ table_of self.old }
        ensures opened { AreOpened Z.OpenedZone self.new }
    {
        self.before = text.as_bytes();
        match day {
            Some(_) => self.day = day,
            // A day is large, and mostly there is none.
            None => self.day = None,
        }
    }

    /// Opens the zone that the nth request names, or finds it where another name opened it, and answers where it stands.
    fn open(&mut self, name: &str, number: usize) -> Result<usize, ReadingError>
        requires { AreOpened Z.OpenedZone self.old }
        ensures placed { IfOk result (IsPlaced Z.OpenedZone (table_of self.old) self.new.opened name.now) }
        ensures err { IfErr result (TellsReading (zone_refusal number (found_in_table Z.read (table_of self.old) name.now))) }
        ensures same { table_of self.new ≡ table_of self.old }
        ensures opened { AreOpened Z.OpenedZone self.new }
        ensures kept { take (length self.old.opened) self.new.opened ≡ self.old.opened }
    {
        let stem = stem_of(self.table, name);
        let place = self.stem_place(stem, number)?;
        self.places.insert(self.alloc, name, place)?;
        Ok(place)
    }

    /// Where the zone stands that stands under a name. It is opened where it wasn't yet.
    fn stem_place(&mut self, stem: &str, number: usize) -> Result<usize, ReadingError>
        requires { AreOpened Z.OpenedZone self.old }
        ensures placed { IfOk result (IsPlaced Z.OpenedZone (table_of self.old) self.new.opened stem.now) }
        ensures err { IfErr result (TellsReading (zone_refusal number (found_in_table Z.read (table_of self.old) stem.now))) }
        ensures same { table_of self.new ≡ table_of self.old }
        ensures opened { AreOpened Z.OpenedZone self.new }
        ensures kept { take (length self.old.opened) self.new.opened ≡ self.old.opened }
    {
        match self.places.get(stem) {
            Some(place) => Ok(*place),
            None => self.open_stem(stem, number),
        }
    }

    /// Opens the zone that stands under a name, and answers where it stands.
    fn open_stem(&mut self, stem: &str, number: usize) -> Result<usize, ReadingError>
        requires { AreOpened Z.OpenedZone self.old }
        ensures placed { IfOk result (IsPlaced Z.OpenedZone (table_of self.old) self.new.opened stem.now) }
        ensures err { IfErr result (TellsReading (zone_refusal number (found_in_table Z.read (table_of self.old) stem.now))) }
        ensures same { table_of self.new ≡ table_of self.old }
        ensures opened { AreOpened Z.OpenedZone self.new }
        ensures kept { take (length self.old.opened) self.new.opened ≡ self.old.opened }
    {
        let zone = Z::open(self.alloc, self.table, stem, number)?;
        let place = self.opened.len();
        self.opened.push(zone)?;
        self.places.insert(self.alloc, stem, place)?;
        Ok(place)
    }

    /// The zone at a place.
    pub fn zone_at(&self, place: usize) -> &Z
        requires { place < length self.now.opened }
        ensures { slice_get self.now.opened place ≡ Some result.now }
    {
        &self.opened[place]
    }
}

/// The name that the zone of a name stands under in a table: that to which a link of this name leads, or the name itself.
fn stem_of<'t>(table: &'t Table, name: &'t str) -> &'t str
    ensures { resolved_in table.now result.now ≡ resolved_in table.now name.now }
{
    if table.zonesets.contains_key(name) {
        return name;
    }
    match table.links.get(name) {
        Some(existing) if table.zonesets.contains_key(existing.as_str()) => existing.as_str(),
        _ => name,
    }
}
