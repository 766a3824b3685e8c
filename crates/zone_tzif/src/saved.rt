//! Daylight saving time that holds for good, which no footer that is tried says.
ghost use Rattle.std.specs.Prelude.{◌≡◌, ℤ, IsTrue, Option, false};
ghost use Rattle.civil_base.specs.Ranges.{IsOffset};
ghost use Rattle.tz_tzif.specs.FooterShown.{footer_shown, held_shown};
ghost use Rattle.tz_lookup.specs.Sets.{IsAccepted, schedule_of};
ghost use Rattle.zone_tzif.specs.{Tails.{beginning_of, IsNotSaved, IsSavedFrom, last_of}, Tells.{Tells}, declared.agreeing.Agreement.TheVariants.{Nowhere}};

use crate::agreeing::{Agreement, first_agreement};
use crate::causes::kind_at;
use crate::convert::Saves;
use crate::until::{CYCLE_BEGIN, count_until};
use tz_lookup::{Offset, SpanTable, offset_of};
use tz_tzif::{Footer, Held};

/// Whether daylight saving time holds for good, from the beginning of 2102 at the latest.
pub(crate) fn is_saved_for_good<S: SpanTable>(set: &S) -> bool
    requires { IsAccepted (schedule_of (S.seen set.now)) }
    ensures yes { IsTrue result → (from : Option ℤ) × IsSavedFrom (S.seen set.now) from }
    ensures no { result ≡ false → IsNotSaved (S.seen set.now) }
{
    let kind = last_kind(set);
    kind.is_dst() && is_told(&Footer::standing(&kind), set)
}

/// What is in force as 2102 begins.
fn last_kind<S: SpanTable>(set: &S) -> Held<'_>
    requires { IsAccepted (schedule_of (S.seen set.now)) }
    ensures kind { held_shown result ≡ last_of (S.seen set.now) }
    ensures offset { IsOffset (last_of (S.seen set.now)).utoff }
{
    let span = count_until(set, CYCLE_BEGIN);
    let kind = kind_at(Saves::Any, set, span);
    let offset = offset_of(set, span);
    // Read for what it says of every offset: that it is in range.
    let _in_range = offset.whole_seconds();
    Held::new(kind.name, offset, kind.is_dst)
}

/// Whether a footer says what a set shows, from anywhere on.
fn is_told<S: SpanTable>(footer: &Footer<'_>, set: &S) -> bool
    requires { IsAccepted (schedule_of (S.seen set.now)) }
    ensures yes { IsTrue result → (from : Option ℤ) × Tells (footer_shown footer.now) (S.seen set.now) (beginning_of from) }
    ensures no { result ≡ false → Tells (footer_shown footer.now) (S.seen set.now) Nowhere }
{
    match first_agreement(footer, set) {
        Agreement::Nowhere => false,
        Agreement::From(_) => true,
        Agreement::Always => true,
    }
}
