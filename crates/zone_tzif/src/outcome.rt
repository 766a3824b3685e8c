//! The answers.

/// The footer that carries a zone on for ever.
#[derive(Debug, Drop)]
pub struct EverTail {
    /// The second, from 1970-01-01 00:00:00 UTC on, of the entry from which on the footer's total is the zone's for ever; no
    /// footer at all does so from an earlier one. None where that holds from the beginning of time.
    pub from: Option<i64>,
    /// The footer.
    pub text: String,
}

/// Why no footer is given. The causes are tried in the order `Saving`, `Shape`, `OffsetRange`, `Name`, `NoRule`.
#[derive(Clone, Copy, Debug, PartialEq, Eq)]
pub enum EverTailFault {
    /// Daylight saving time holds for good, from the beginning of 2102 at the latest: a footer of one offset says standard time.
    Saving,
    /// The year 2102 has entries, and they are not two, one of which starts daylight saving time with a saving other than 0 and the
    /// other ends it, both with one standard offset.
    Shape,
    /// An offset that would be written is past 24:59:59.
    OffsetRange,
    /// POSIX has no place for a name that would be written: it has less than three bytes, or others than ASCII letters, digits, `+` and
    /// `-`.
    Name,
    /// No footer that names the entries of 2102 by weekdays or by dates, with times from -167 to 167 hours, says the same for ever.
    NoRule,
    /// There is no memory for a footer.
    NoMemory,
}
