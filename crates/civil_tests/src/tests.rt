//! The tests, by the crates that they are of.

mod checks;
mod dates;
mod items;
mod moments;
mod owned_values;
mod padding;
mod parts;
mod pieces;
