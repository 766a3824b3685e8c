//! Which version of the calls this is, and the years of the rules.
ghost use Rattle.std.specs.Prelude.{◌≡◌, length};
ghost use Rattle.sefunjaro_c.specs.Version.{rule_years, version};
ghost use Rattle.sefunjaro.specs.Rooms.{filled};

use sefunjaro::fill;
use zone_spans::{EARLIEST_YEAR, MOST_YEARS};

/// The years that the rules of a source are worked out for. Before the first nothing changes in a zone, and after the last nothing does
/// in one that doesn't go on for ever: [`sefunjaro_years_by`](crate::changes::sefunjaro_years_by) tells.
#[derive(Clone, Copy, Debug, PartialEq, Eq)]
#[repr(C)]
pub struct Years {
    /// The first year.
    pub first: i32,
    /// The last year.
    pub last: i32,
}

/// The version of the calls goes into the room, as far as it fits, and its whole length is told; and the years of the rules.
#[unsafe(no_mangle)]
pub extern "C" fn sefunjaro_version(text: &mut [u8], whole: &mut usize, years: &mut Years)
    ensures text { text.new ≡ filled version text.old }
    ensures length { whole.new ≡ length version }
    ensures years { years.new ≡ rule_years }
{
    *whole = fill(b"2.0.0", text);
    *years = Years {
        first: i32::from(EARLIEST_YEAR),
        last: i32::from(EARLIEST_YEAR + MOST_YEARS - 1),
    };
}
