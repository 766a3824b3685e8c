//! Formats that have a name.

/// The dates of RFC 2822.
#[derive(Clone, Copy, Debug, PartialEq, Eq)]
pub struct Rfc2822;

/// The dates of RFC 3339.
#[derive(Clone, Copy, Debug, PartialEq, Eq)]
pub struct Rfc3339;
