//! Compiled zones as TZif files (RFC 8536), which most systems read: one file is written for a zone, and files are read exactly.
#![tactic(auto)]

mod check;
mod distinct;
mod file_reader;
mod header;
mod kinds;
mod laws;
mod names;
mod numbers;
mod parts;
mod profile;
mod reader;
mod shifts;
mod stored;
mod values;
mod write;
mod writer;
mod zone_file;

pub use check::said_footer;
pub use file_reader::read_file;
pub use kinds::{Record, is_small};
pub use laws::{
    denoted_is_said, each_denotes, one_reading, one_saying, one_value, said_bounds, written_denotes,
};
pub use profile::read_tzif;
pub use reader::read_any;
pub use shifts::do_rise;
pub use values::{Kind, ReadFault, TzifZone, Version, WriteFault};
pub use writer::{write_tzif, write_version};
pub use zone_file::ZoneFile;
