//! What holds at an instant.

use civil_base::UtcOffset;
use tz_lookup::Offset;

/// An offset from UTC that a compiled zone puts in force, with its abbreviation and whether it is daylight saving time.
#[derive(Clone, Copy, Debug, Drop, PartialEq, Eq)]
pub struct Held<'a> {
    pub(crate) name: &'a str,
    pub(crate) offset: UtcOffset,
    pub(crate) is_dst: bool,
}

impl<'a> Held<'a> {
    ghost use Rattle.std.specs.Prelude.{◌≡◌};
    ghost use Rattle.tz_tzif.specs.FooterShown.{held_shown};

    /// The offset of that name.
    pub fn new(name: &'a str, offset: UtcOffset, is_dst: bool) -> Held<'a>
        ensures { held_shown result ≡ record { utoff = offset; is_dst = is_dst; name = name.now } }
    {
        Held {
            name,
            offset,
            is_dst,
        }
    }

    /// The same once more.
    pub fn copied(&self) -> Held<'a>
        ensures { held_shown result ≡ held_shown self.now }
    {
        Held {
            name: self.name,
            offset: self.offset,
            is_dst: self.is_dst,
        }
    }

    /// The offset from UTC.
    pub fn offset(&self) -> UtcOffset
        ensures { result ≡ (held_shown self.now).utoff }
    {
        self.offset
    }
}

impl<'a> Offset for Held<'a> {
    ghost total = { λ held. held.offset };

    ghost called = { λ held. held.name.now };

    ghost is_saving = { λ held. held.is_dst };

    fn to_utc(&self) -> UtcOffset {
        self.offset
    }

    fn name(&self) -> &str {
        self.name
    }

    fn is_dst(&self) -> bool {
        self.is_dst
    }
}
