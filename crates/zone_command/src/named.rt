//! Zones by their names: offsets, and what the source has.
ghost use Rattle.std.specs.Prelude.{◌≡◌, Err, IfErr, IfOk, Ok};
ghost use Rattle.zone_command.specs.{Named.{named_in, named_view}, Refusals.{IsTold}};

use crate::answers::refusal_of;
use crate::offset::offset_in;
use crate::source::{Refusal, ZoneSource};
use civil_base::{OffsetDateTime, PlainDateTime, UtcOffset};
use std::alloc::{AllocError, Global};
use zone_texts::{FixedZone, Force, ReplyZone};

/// A zone by its name.
#[derive(Drop)]
pub enum NamedZone<'n, Z> {
    /// An offset.
    Fixed(FixedZone<'n>),
    /// A zone of the source.
    Found(Z),
}

impl<Z: ReplyZone> ReplyZone for NamedZone<'_, Z> {
    ghost use Rattle.zone_command.specs.Named.{named_view};

    ghost view = { named_view Z.view };

    fn last_year(&self) -> i32 {
        match self {
            NamedZone::Fixed(zone) => zone.last_year(),
            NamedZone::Found(zone) => zone.last_year(),
        }
    }

    fn shown_at(&self, at: &OffsetDateTime) -> Option<OffsetDateTime> {
        match self {
            NamedZone::Fixed(zone) => zone.shown_at(at),
            NamedZone::Found(zone) => zone.shown_at(at),
        }
    }

    fn offset_at(&self, second: i64) -> UtcOffset {
        match self {
            NamedZone::Fixed(zone) => zone.offset_at(second),
            NamedZone::Found(zone) => zone.offset_at(second),
        }
    }

    fn offset_before(&self, second: i64) -> UtcOffset {
        match self {
            NamedZone::Fixed(zone) => zone.offset_before(second),
            NamedZone::Found(zone) => zone.offset_before(second),
        }
    }

    fn force_at(&self, alloc: Global, second: i64) -> Result<Force, AllocError> {
        match self {
            NamedZone::Fixed(zone) => zone.force_at(alloc, second),
            NamedZone::Found(zone) => zone.force_at(alloc, second),
        }
    }

    fn force_before(&self, alloc: Global, second: i64) -> Result<Force, AllocError> {
        match self {
            NamedZone::Fixed(zone) => zone.force_before(alloc, second),
            NamedZone::Found(zone) => zone.force_before(alloc, second),
        }
    }

    fn instants(
        &self,
        alloc: Global,
        local: &PlainDateTime,
    ) -> Result<Vec<OffsetDateTime>, AllocError> {
        match self {
            NamedZone::Fixed(zone) => zone.instants(alloc, local),
            NamedZone::Found(zone) => zone.instants(alloc, local),
        }
    }

    fn changes(&self, alloc: Global, from: i64, to: i64) -> Result<Vec<i64>, AllocError> {
        match self {
            NamedZone::Fixed(zone) => zone.changes(alloc, from, to),
            NamedZone::Found(zone) => zone.changes(alloc, from, to),
        }
    }
}

/// The zone that a name finds: an offset, or a zone of the source.
///
/// # Errors
///
/// The name in quotes and why it finds none, or want of memory.
pub fn find_named<'n, S: ZoneSource>(
    alloc: Global,
    source: &S,
    name: &'n str,
) -> Result<NamedZone<'n, S::Zone>, Refusal>
    ensures ok { IfOk result (λ zone. named_in (S.found source.now) name.now ≡ Ok (named_view S.Zone.view zone)) }
    ensures err { IfErr result (IsTold (λ words. named_in (S.found source.now) name.now ≡ Err words)) }
{
    match offset_in(name) {
        Some(offset) => Ok(NamedZone::Fixed(FixedZone { name, offset })),
        None => match source.zone(alloc, name) {
            Ok(zone) => Ok(NamedZone::Found(zone)),
            Err(Refusal::Why(why)) => Err(refusal_of(alloc, name, &why)),
            Err(Refusal::NoMemory) => Err(Refusal::NoMemory),
        },
    }
}
