//! A tz source in any form that `zic` reads, written in the plain form that the other crates read.
#![tactic(auto)]

mod asked;
mod laws;
mod links;
mod made;
mod offsets;
mod parts;
mod whole;

pub use laws::{
    abbreviations, its_own, made_names, made_rulesets, one_total, plain_is_kept, plain_stays,
    settled_links, written_is_read,
};
pub use offsets::write_out;
pub use whole::plain;
pub use zone_plain_lines::PlainFault;
