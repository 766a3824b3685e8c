//! Parts of texts, their ranges, and the moments of a rule in each year, for crates whose texts have the same parts.

pub use crate::moments::Moments;
pub use crate::range::{check_offset, check_own_offset, check_rule};
pub use crate::read::dates::date;
pub use crate::read::names::name;
pub use crate::read::own_offset;
pub use crate::read::times::offset;
pub use crate::rule::{YearlyRule, YearlyTime, counted_year_at};
pub use crate::time::saving_offset;
