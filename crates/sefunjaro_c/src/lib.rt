//! Sefunjaro for C: `include/sefunjaro.h` declares these functions, and says what each means and what its caller owes.
//!
//! Each export hands on a call of the libraries below and states its clauses again. What a caller holds is a handle, which owns what
//! was opened through it, or nothing, and lends it to whoever reads.
#![tactic(auto)]

mod answer;
mod any_source;
mod changes;
mod fault;
mod files;
mod for_ever;
mod handle;
mod lists;
mod local_lists;
mod opened;
mod sources;
mod version;
mod view;
mod whole;
mod zones;

pub use handle::{Handle, Held, Hidden};
pub use opened::Opened;
pub use view::{Part, Reading, View};
