//! The ranges of a footer's parts.
ghost use Rattle.std.specs.{Prelude.{◌≡◌}, Result.{result_err}};
ghost use Rattle.tz_tzif.specs.{Ranges.{footer_miss}, Shown.{text_shown}};

use crate::values::FooterText;
use tz_posix::RangeError;
use tz_posix::parts::{check_offset, check_own_offset, check_rule};

/// The first part that is out of its range.
#[tactic(auto, unfolding(tz_posix::specs::Ranges::first_miss))]
pub(crate) fn check(footer: &FooterText<'_>) -> Result<(), RangeError>
    ensures { result_err result ≡ footer_miss (text_shown footer.now) }
{
    check_offset(&footer.std.offset)?;
    match &footer.dst {
        None => Ok(()),
        Some(saving) => {
            check_own_offset(&saving.offset)?;
            check_rule(&saving.rule)
        }
    }
}
