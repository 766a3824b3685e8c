//! What the command `zone` tells of zones, as exact texts: what clocks show and when they change; when alarms ring; the names of a
//! source that have a word in them, or that someone may have meant; a picture of the offsets of zones over a year.
#![tactic(auto)]

mod bytes;
mod changes;
mod chart;
mod days;
mod drawing;
mod edit;
mod entry;
mod escape;
mod fault;
mod fixed;
mod force;
mod frame;
mod instants;
mod kind;
pub mod laws;
mod line;
mod lines;
mod near;
mod object;
mod readings;
mod skip;
mod text;
mod unknown;
mod view;
mod zone;

pub use bytes::add_bytes;
pub use changes::{add_change_line, add_list, kind_between};
pub use chart::chart_of;
pub use entry::NameEntry;
pub use fault::ReplyFault;
pub use fixed::FixedZone;
pub use force::Force;
pub use kind::Kind;
pub use line::{Style, is_untold, local_of};
pub use lines::add_rings;
pub use near::near_names;
pub use object::add_quoted;
pub use readings::{add_at, add_at_line, add_converted, add_local};
pub use skip::skipping;
pub use text::add_names;
pub use unknown::add_unknown;
pub use view::ReplyZone;
pub use zone::ChartZone;
