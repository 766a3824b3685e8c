//! A zone as a whole: the lines of its changes, the string that carries it on, and its file.
use crate::error::Error;
use crate::zone::OpenZone;
use std::alloc::Global;
use tz_ever::ZoneTable;
use zone_list::{ListFault, Listing, lines_of};
use zone_tail::{Tail, TailFault, tail};
use zone_tzif::{FileFault, consistent_tzif_of};

impl OpenZone {
    ghost use Rattle.std.specs.Prelude.{◌≡◌, ℤ, IfErr, IfOk, IsErrOf, MatchResult, OnOk, string_bytes, false, true};
    ghost use Rattle.zone_list.specs.{Ranges.{all_have_dates}, Rows.{rows}, Windows.{window}};
    ghost use Rattle.sefunjaro.specs.{Causes.{IsListCause}, Zones.{set_in, spans_in}};
    ghost use Rattle.zone_spans.specs.Schedules.{total_at as set_total_at};
    ghost use Rattle.tz_lookup.specs.Sets.{schedule_of};
    ghost use Rattle.zone_tail.specs.{Carried.{CarriesOn}, Tails.{IsFaultOf, IsTail}};
    ghost use Rattle.zone_tzif_core.specs.{Denotes.{Denotes}, Totals.{file_total_at}, Tzif.{IsTzif}, Zones.{ZoneValue}};
    ghost use Rattle.zone_tzif.specs.Files.{consistent_zone, IsCarriedOn, MakesZone};

    /// The lines of the changes from a second on and before another, as [`list_lines`](zone_list::list_lines) has those of a set: the
    /// second, the abbreviation, and the time by the clocks of the zone, in columns. Those of a zone that goes on for ever are listed up
    /// to the end of 10501, of which none past 9999 has a date.
    ///
    /// # Errors
    ///
    /// `List` exactly where the UTC date or the local date of one of these lies outside the years -9999 to 9999; `NoMemory`.
    pub fn lines(&self, alloc: Global, from: i64, to: i64) -> Result<Listing, Error>
        ensures ok { OnOk result (all_have_dates (window (spans_in self.now) from to) ≡ true) }
        ensures lines { IfOk result (λ listing. listing ≡ rows (window (spans_in self.now) from to)) }
        ensures err { IfErr result (IsListCause (window (spans_in self.now) from to)) }
    {
        match self.lines_within(alloc, from, to) {
            Ok(listing) => Ok(listing),
            Err(ListFault::Range) => Err(Error::List(ListFault::Range)),
            Err(ListFault::NoMemory) => Err(Error::NoMemory),
        }
    }

    /// The same, as `zone_list` has them.
    fn lines_within(&self, alloc: Global, from: i64, to: i64) -> Result<Listing, ListFault>
        ensures ok { OnOk result (all_have_dates (window (spans_in self.now) from to) ≡ true) }
        ensures lines { IfOk result (λ listing. listing ≡ rows (window (spans_in self.now) from to)) }
        ensures range { IsErrOf result ListFault.Range → all_have_dates (window (spans_in self.now) from to) ≡ false }
    {
        lines_of(alloc, &ZoneTable::new(&self.zone), from, to)
    }

    /// The POSIX TZ string that carries the zone on, as [`tail`](zone_tail::tail) gives it of the zone's spans. It takes
    /// memory for the string alone.
    ///
    /// # Errors
    ///
    /// In this order, and each exactly where it says: `Shape`, `OffsetRange`, `Name`; `NoMemory`, and never where one of these is due.
    pub fn tail(&self, alloc: Global) -> Result<Tail, TailFault>
        ensures told { MatchResult result (λ tail. IsTail (set_in self.now) tail.from (string_bytes tail.text)) (IsFaultOf (set_in self.now)) }
        ensures read { IfOk result (λ tail. CarriesOn (set_in self.now) tail.from (string_bytes tail.text)) }
    {
        match tail(alloc, self.compact()) {
            Ok(tail) => Ok(tail),
            Err(fault) => Err(fault),
        }
    }

    /// The zone's TZif file, as [`consistent_tzif_of`] writes it of the zone's spans, with the string that carries the zone on as
    /// its footer, or none where there is no such string or it may say otherwise as a footer. It takes memory for the file.
    ///
    /// # Errors
    ///
    /// In this order, and each exactly where it says: `Times`, `Types`, `Names`; `NoMemory`, and never where one of these is due.
    pub fn tzif(&self, alloc: Global) -> Result<Vec<u8>, FileFault>
        ensures told { MakesZone (λ file. file.items) (consistent_zone (set_in self.now)) result }
        ensures file { IfOk result (λ file. IsTzif file.items (consistent_zone (set_in self.now))) }
        ensures totals { IfOk result (λ file. (zone : ZoneValue) → Denotes file.items zone → (t : ℤ) → file_total_at zone t ≡ set_total_at (schedule_of (set_in self.now)) t) }
        ensures carried { IfOk result (λ _. IsCarriedOn (set_in self.now)) }
    {
        match consistent_tzif_of(alloc, self.compact()) {
            Ok(file) => Ok(file),
            Err(fault) => Err(fault),
        }
    }
}
