//! A zone, wherever it comes from: its changes, and perhaps a cycle of 400 years that comes again. The calendar repeats after 400 years,
//! so the spans of 704 years say what is in force at any instant.
#![tactic(auto)]

pub mod cycle;
pub mod laws;
mod open;
mod recurrence;
mod stretch;
mod table;
mod zone_set;
mod zone_tz;

pub use open::EverFault;
pub use recurrence::Recurrence;
pub use stretch::zone_stretch;
pub use table::ZoneTable;
pub use zone_set::{EVER_YEARS, ZoneSet};
pub use zone_tz::{ZoneCursor, ZoneTz};
