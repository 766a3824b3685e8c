//! `SmartDisplay` for the types of std and of this crate.
mod integers;
mod texts;
mod wrappers;
