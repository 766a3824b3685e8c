//! What the crates above read a set's spans and write such strings with.

pub use crate::faults::{can_be_written, is_name, is_posix_name};
pub use crate::spans::{entry_span, entry_time, total_of};
pub use crate::text::{
    add, add_date, add_name, add_number, add_offset, add_saving, add_time, steady_text, totals_text,
};
