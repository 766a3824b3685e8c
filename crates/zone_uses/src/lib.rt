//! Short callers of the library, to copy: each does one thing that a calendar, a scheduler or a log viewer needs, and its
//! contract follows from the clauses of the calls that it makes.
#![tactic(auto)]

mod alarm;
mod asked;
mod changes;
mod file;
mod found;
mod moved;
mod opened;
mod posix;
mod told;

pub use alarm::wake_ups;
pub use asked::{every_instant, local_time, meeting};
pub use changes::next_change;
pub use file::offset_in_file;
pub use found::{how_many, offset_in};
pub use moved::{Moved, MovedOffset};
pub use opened::zone_of_source;
pub use posix::posix_offset;
pub use told::{offset_in_source, offset_or_text};
