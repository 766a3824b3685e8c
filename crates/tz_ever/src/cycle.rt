//! A zone goes on for ever where its rules do: the Gregorian calendar repeats after 400 years, and so does what a zone shows.
//!
//! Each function is a law: it does nothing, and its clause holds of all values.

pub mod days;
pub mod for_ever;
pub mod years;
