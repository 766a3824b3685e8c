//! Compiled zone files as time zones: the offset at an instant and the instants of a local time, also past the last change, where
//! the rules of today stand in the footer alone.
//!
//! A footer is a POSIX TZ string of standard time alone, or with daylight saving time and its rule, whose times may have a
//! sign and up to 167 hours (RFC 8536, 3.3.1). It is read by a written grammar, and takes no memory.
#![tactic(auto)]

mod accept;
mod fault;
mod footer;
mod held;
mod in_force;
mod laws;
mod moments;
mod range;
mod read;
pub mod repeats;
mod rule;
mod search;
mod spans;
mod values;

pub use accept::read_footer;
pub use fault::TzifFault;
pub use footer::Footer;
pub use held::Held;
pub use laws::{file_totals, one_footer, opened_shows};
pub use read::footer_text;
pub use spans::{FileSpans, spans_of};
pub use values::{FooterRule, FooterText, Saving};
