//! What is in force at a second.
use civil_base::UtcOffset;

/// What is in force at a second in a zone.
#[derive(Debug, Drop)]
pub struct Force {
    /// The offset.
    pub offset: UtcOffset,
    /// How many seconds of it are the saving. They are below 0 where winter time is the one with a saving.
    pub saving: i64,
    /// The abbreviation.
    pub name: String,
}
