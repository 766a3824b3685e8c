//! When a daily alarm rings.

use crate::error::Error;
use crate::zone::OpenZone;
use civil_base::{Date, Time};
use std::alloc::Global;
use tz_ever::ZoneTz;
use zone_alarm::{AlarmFault, Ring, alarms};

impl OpenZone {
    ghost use Rattle.std.specs.Prelude.{MatchResult};
    ghost use Rattle.sefunjaro.specs.{Answered.{AreRings}, Causes.{IsAlarmCause}, Zones.{total_in}};

    /// When a daily alarm rings that is set to a time of day: one [`Ring`] for each of so many days, from the first on, as [`alarms`]
    /// has them.
    ///
    /// # Errors
    ///
    /// `Alarm` exactly where `days` is above 0 and the last day is past 9999-12-31; `NoMemory`, and never where `Alarm` is due.
    pub fn alarms(
        &self,
        alloc: Global,
        at: Time,
        first: Date,
        days: u32,
    ) -> Result<Vec<Ring>, Error>
        ensures { MatchResult result (λ found. AreRings (total_in self.now) at first days found.items) (IsAlarmCause first days) }
    {
        match alarms(alloc, &ZoneTz::new(&self.zone), at, first, days) {
            Ok(rings) => Ok(rings),
            Err(AlarmFault::Range) => Err(Error::Alarm(AlarmFault::Range)),
            Err(AlarmFault::NoMemory) => Err(Error::NoMemory),
        }
    }
}
