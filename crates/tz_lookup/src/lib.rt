//! A set of spans as a time zone, what is in force at an instant, and which instants the zone reads as a local time; compact sets,
//! in which this is looked up by year and takes less memory; and databases of zones by their names.
//!
//! The names are those of the crate `time-tz`.
#![tactic(auto)]

mod compact_set;
mod compact_tz;
mod compile;
mod database;
mod fixed;
mod instants;
mod lookups;
mod search;
mod set;
mod stretch;
mod time_zone;
mod tz;

pub use compact_set::{CompactFault, CompactSet, LAST_YEAR_BEGIN, RULES_BEGIN, RULES_END};
pub use compact_tz::{CompactInstants, CompactOffset, CompactTz};
pub use compile::{ZoneFault, compile_zone, compile_zone_over};
pub use database::{Database, DatabaseFault, DatabaseIter, names_in_order};
pub use fixed::{Fixed, FixedOffset};
pub use instants::{InstantsIn, InstantsLocal};
pub use lookups::{
    SpanTable, local_spans, local_spans_counted, next_span, offset_of, span_between,
};
pub use search::{Probe, Steps, binary_search};
pub use set::{FixedTimespanSet, TzFault, is_orderly};
pub use stretch::{Stretch, span_begin, span_end, stretch_of};
pub use time_zone::{
    AllInstants, InstantsOf, Offset, OffsetDateTimeExt, OffsetResult, PrimitiveDateTimeExt,
    SpanCursor, SpanScan, TimeZone, local_second,
};
pub use tz::{Tz, TzOffset};
pub use zone_spans::{FixedTimespan, SpanFault};
