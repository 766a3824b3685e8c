//! What an alarm does on a day.

use civil_base::{Date, OffsetDateTime};
use std::alloc::AllocError;

/// A day, and when an alarm rings on it.
#[derive(Clone, Copy, Debug, PartialEq, Eq)]
pub struct Ring {
    /// The local date.
    pub date: Date,
    /// The date and time at the offset in force, or none where clocks skip the time on this day.
    pub at: Option<OffsetDateTime>,
}

/// Why there are no rings.
#[derive(Clone, Copy, Debug, PartialEq, Eq)]
pub enum AlarmFault {
    /// The last day is past 9999-12-31.
    Range,
    /// Memory ran out.
    NoMemory,
}

impl From<AllocError> for AlarmFault {
    ghost use Rattle.std.specs.Prelude.{◌≡◌};
    ghost use Rattle.zone_alarm.specs.declared.ring.AlarmFault.TheVariants.{NoMemory};

    ghost from_gives = { λ _ fault. fault ≡ NoMemory };

    fn from(_: AllocError) -> AlarmFault {
        AlarmFault::NoMemory
    }
}
