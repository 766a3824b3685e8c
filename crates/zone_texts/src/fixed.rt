//! Zones of one offset, as `UTC` and `+02:00`.
ghost use Rattle.zone_texts.specs.Fixed.{fixed_view};

use crate::force::Force;
use crate::view::ReplyZone;
use civil_base::{OffsetDateTime, PlainDateTime, UtcOffset};
use std::alloc::{AllocError, Global};

/// A zone of one offset for good, which is no saving.
#[derive(Clone, Copy, Debug)]
pub struct FixedZone<'a> {
    /// The abbreviation.
    pub name: &'a str,
    /// The offset.
    pub offset: UtcOffset,
}

impl ReplyZone for FixedZone<'_> {
    ghost view = { λ zone. fixed_view zone.offset zone.name.now };

    fn last_year(&self) -> i32 {
        9999
    }

    fn shown_at(&self, at: &OffsetDateTime) -> Option<OffsetDateTime> {
        at.to_offset(self.offset)
    }

    fn offset_at(&self, _second: i64) -> UtcOffset {
        self.offset
    }

    fn offset_before(&self, _second: i64) -> UtcOffset {
        self.offset
    }

    fn force_at(&self, alloc: Global, _second: i64) -> Result<Force, AllocError> {
        Ok(Force {
            offset: self.offset,
            saving: 0,
            name: String::from_str(alloc, self.name)?,
        })
    }

    fn force_before(&self, alloc: Global, second: i64) -> Result<Force, AllocError> {
        self.force_at(alloc, second)
    }

    fn instants(
        &self,
        alloc: Global,
        local: &PlainDateTime,
    ) -> Result<Vec<OffsetDateTime>, AllocError> {
        let date = local.assume_offset(self.offset);
        let mut found = Vec::new(alloc);
        found.extend_from_slice(&[date])?;
        Ok(found)
    }

    fn changes(&self, alloc: Global, _from: i64, _to: i64) -> Result<Vec<i64>, AllocError> {
        Ok(Vec::new(alloc))
    }
}
