//! Whether the changes of a zone come again.

/// Whether the changes of a zone come again behind the last one that is kept.
#[derive(Clone, Copy, Debug, PartialEq, Eq)]
pub enum Recurrence {
    /// They don't: what holds after the last one holds for good.
    Never,
    /// Those of the years 2102 to 2501 come again in each later cycle of 400 years.
    Later,
    /// They come again in each cycle, in the earlier ones too.
    Always,
}
