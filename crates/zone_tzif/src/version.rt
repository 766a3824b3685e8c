//! The version of a file by its footer.
ghost use Rattle.std.specs.Prelude.{◌≡◌};
ghost use Rattle.tz_tzif.specs.{Shown.{text_shown}, Spells.{SpellsFooter}, Values.{FooterValue}};
ghost use Rattle.zone_tzif.specs.EverFiles.{is_posix_time, version_for};

use tz_posix::Offset;
use tz_tzif::{FooterText, footer_text, one_footer};
use zone_tzif_core::Version;

/// The least version that has a text as its footer.
pub(crate) fn version_of(text: &str) -> Version
    ensures { (value : FooterValue) → SpellsFooter text.now value → result ≡ version_for value }
{
    one_footer();
    match footer_text(text) {
        Some(footer) => version_for(&footer),
        None => Version::Two,
    }
}

fn version_for(footer: &FooterText<'_>) -> Version
    ensures { result ≡ version_for (text_shown footer.now) }
{
    match &footer.dst {
        Some(saving) if is_posix(&saving.rule.start.1) && is_posix(&saving.rule.end.1) => {
            Version::Two
        }
        Some(_) => Version::Three,
        None => Version::Two,
    }
}

/// Whether a rule's time has no `-`, and 24 hours at most.
fn is_posix(time: &Option<Offset>) -> bool
    ensures { result ≡ is_posix_time time.now }
{
    match time {
        Some(time) => time.positive && time.time.hh <= 24,
        None => true,
    }
}
