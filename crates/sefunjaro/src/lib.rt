//! Sefunjaro as one library: a source in plain form or in any opened, a zone of it, of a compiled file or of a POSIX string, and
//! asked both ways; its changes, its saving, its rings, the string that carries it on and its file.
//!
//! Sources and zones are opened once and asked many times ([`OpenSource`], [`OpenZone`]), as a program in
//! another language holds them: what is asked is answered in plain numbers, lists and texts go as far as the caller's room, and no
//! question takes memory but those for the string and the file. Beside them stand the calls over tables and sets by which a zone is
//! opened step by step ([`open_source`], [`open_zone`]), and the names that most callers need, from the crates where they are defined
//! and proved. One [`Error`] has the cause of each call, typed and with a text, and `?` reaches it from each.
#![tactic(auto)]

mod answer;
mod any_source;
mod changes;
mod clock;
mod error;
mod file;
mod found;
mod gap;
mod offsets;
mod opening;
mod posix_names;
mod replies;
mod rings;
mod room;
mod shown;
mod source;
mod texts;
mod tree;
mod whole;
mod zone;

pub use answer::Answer;
pub use any_source::AnySourceFault;
pub use changes::Change;
pub use civil_base::{
    Date, Month, OffsetDateTime, PlainDateTime, SignedDuration, Time, UtcOffset, Weekday,
    read_local, read_zoned, write_local, write_zoned,
};
pub use clock::Clock;
pub use error::Error;
pub use file::{FileFault, PosixFault};
pub use found::{FoldRule, Found, GapRule};
pub use gap::Gap;
pub use opening::{open_database, open_source, open_zone};
pub use posix_names::{has_posix_names, is_posix_string};
pub use room::fill;
pub use shown::is_in_years;
pub use source::{OpenFault, OpenSource};
pub use tz_ever::{Recurrence, ZoneSet};
pub use tz_lookup::{
    AllInstants, CompactSet, CompactTz, Database, DatabaseFault, Fixed, FixedTimespanSet,
    InstantsLocal, InstantsOf, Offset, OffsetDateTimeExt, OffsetResult, PrimitiveDateTimeExt,
    TimeZone, Tz, TzFault, ZoneFault,
};
pub use tz_posix::PosixTz;
pub use tz_tzif::TzifFault;
pub use zone::{InForce, OpenZone, Origin, Reading};
pub use zone_alarm::{AlarmFault, Ring, alarms};
pub use zone_line::LineParser;
pub use zone_list::{ListFault, Listing, lines_of, list_lines};
pub use zone_source::SourceError;
pub use zone_table::Table;
pub use zone_tail::{Tail, TailFault, tail};
pub use zone_tree::{TreeFault, Why};
pub use zone_tzif::{EverFileFault, EverTail, EverTailFault, tail_for_ever, tzif_for_ever};
pub use zone_tzif_core::{ReadFault, TzifZone, ZoneFile, read_any, read_file};
