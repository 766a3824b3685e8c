//! Zones that replies can be about.
ghost use Rattle.std.specs.Prelude.{◌≡◌, ◌-ℤ◌, pos, map, is_some, IfOk, IfSome};
ghost use Rattle.civil_base.specs.{DateTimes.{instant, offset_of}, Instants.{local_at}, Ranges.{is_in_years}};
ghost use Rattle.zone_texts.specs.{Forces.{force_shown}, Views.{ZoneView}};

use crate::force::Force;
use civil_base::{OffsetDateTime, PlainDateTime, UtcOffset};
use std::alloc::{AllocError, Global};

/// A zone that replies can be about.
pub trait ReplyZone {
    /// What is seen of it.
    ghost view: { Self → ZoneView };

    /// The last year up to whose end it says what is in force.
    fn last_year(&self) -> i32
        ensures { result ≡ (view self.now).last_year };

    /// The instant at the offset in force. There is none exactly where the local date lies outside the years -9999 to 9999.
    fn shown_at(&self, at: &OffsetDateTime) -> Option<OffsetDateTime>
        ensures instant { IfSome result (λ value. instant value ≡ instant at.now) }
        ensures offset { IfSome result (λ value. offset_of value ≡ (view self.now).total (instant at.now)) }
        ensures years { is_some result ≡ is_in_years (local_at (instant at.now) ((view self.now).total (instant at.now))) };

    /// The offset in force at a second from 1970-01-01 00:00:00 UTC.
    fn offset_at(&self, second: i64) -> UtcOffset
        ensures { result ≡ ((view self.now).force second).offset };

    /// The offset just before that second.
    fn offset_before(&self, second: i64) -> UtcOffset
        ensures { result ≡ ((view self.now).force (second -ℤ pos 1)).offset };

    /// What is in force at that second.
    ///
    /// # Errors
    ///
    /// Want of memory alone.
    fn force_at(&self, alloc: Global, second: i64) -> Result<Force, AllocError>
        ensures { IfOk result (λ force. force_shown force ≡ (view self.now).force second) };

    /// What is in force just before that second.
    ///
    /// # Errors
    ///
    /// Want of memory alone.
    fn force_before(&self, alloc: Global, second: i64) -> Result<Force, AllocError>
        ensures { IfOk result (λ force. force_shown force ≡ (view self.now).force (second -ℤ pos 1)) };

    /// All instants at which clocks show a local time, by time.
    ///
    /// # Errors
    ///
    /// Want of memory alone.
    fn instants(
        &self,
        alloc: Global,
        local: &PlainDateTime,
    ) -> Result<Vec<OffsetDateTime>, AllocError>
        ensures { IfOk result (λ found. map instant found.items ≡ (view self.now).readings local.now) };

    /// The seconds of its changes, from one second on and before another, by time.
    ///
    /// # Errors
    ///
    /// Want of memory alone.
    fn changes(&self, alloc: Global, from: i64, to: i64) -> Result<Vec<i64>, AllocError>
        ensures { IfOk result (λ found. found.items ≡ (view self.now).changes from to) };
}
