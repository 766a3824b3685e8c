//! A whole zoneinfo tree from one source: every zone, and every link to one, as a TZif file in a tar archive.
#![tactic(auto)]

mod archive;
mod entry;
mod ever;
mod files;
mod folder;
mod laws;
mod names;
mod refusal;
mod whole;

pub use archive::{one_list, reads_back};
pub use laws::{ever_names_and_links, names_and_links, same_by_table};
pub use refusal::{TreeFault, Why};
pub use whole::{tree, tree_for_ever, tree_of_table, tree_of_table_for_ever};
