//! Footers and what they put in force.
ghost use Rattle.std.specs.Prelude.{◌≡◌, ◌≤◌, None, option_and_then, unsigned_abs, ℤ, ◌≤ℤ◌, ◌<ℤ◌};
ghost use Rattle.tz_tzif.specs.{Ranges.{footer_miss}, Shown.{saving_shown, text_shown}, FooterShown.{held_shown}, Standing.{saving_kind}};
ghost use Rattle.tz_posix.specs.{InForce.{moment_of}, Ranges.{offset_miss, rule_range}, Seconds.{IsWritten}, Spells.{signed_times}, Yearly.{time_shown}};

use crate::held::Held;
use crate::range::check;
use crate::read::footer_text;
use crate::rule::{is_saving, next_change};
use crate::values::{FooterText, Saving};
use civil_base::UtcOffset;
use tz_posix::parts::{YearlyRule, saving_offset};

/// What a footer puts in force at each second.
#[derive(Clone, Debug, Drop, PartialEq, Eq)]
pub struct Footer<'a> {
    pub(crate) standard: Held<'a>,
    pub(crate) saving: Option<Yearly<'a>>,
}

/// Daylight saving time, and when it holds.
#[derive(Clone, Debug, Drop, PartialEq, Eq)]
pub(crate) struct Yearly<'a> {
    pub(crate) held: Held<'a>,
    pub(crate) rule: YearlyRule,
}

impl<'a> Footer<'a> {
    ghost use Rattle.std.specs.Prelude.{MatchOption};
    ghost use Rattle.tz_tzif.specs.{FooterShown.{footer_shown}, FooterForce.{fixed, held_at, is_fixed, standard_total, saving_total}, Ranges.{IsFooterOf}, Standing.{StandsFor, stands_for}, Values.{FooterValue}, Years.{HasDate}};

    /// What a whole footer stands for. There is nothing exactly where the text is no footer, or has a part that is out of its
    /// range: more than 24 hours of an offset (24:59:59 is taken), more than 167 of a rule's time, a minute or a second past 59,
    /// or a day outside the ranges of POSIX TZ strings.
    pub fn parse(text: &'a str) -> Option<Footer<'a>>
        ensures { MatchOption result ((value : FooterValue) → ¬ (IsFooterOf text.now value)) (λ footer. StandsFor text.now (footer_shown footer)) }
    {
        match footer_text(text) {
            Some(read) => match check(&read) {
                Ok(()) => Some(Footer::of(&read)),
                Err(_error) => None,
            },
            None => None,
        }
    }

    /// One kind of time for good, which may be daylight saving time: that is the text of no footer.
    pub fn standing(kind: &Held<'a>) -> Footer<'a>
        ensures { footer_shown result ≡ fixed (held_shown kind.now) }
    {
        Footer {
            standard: kind.copied(),
            saving: None,
        }
    }

    /// What a value in its ranges stands for.
    #[tactic(auto, unfolding(crate::specs::Standing::stands_for))]
    fn of(text: &FooterText<'a>) -> Footer<'a>
        requires { footer_miss (text_shown text.now) ≡ None }
        ensures { footer_shown result ≡ stands_for (text_shown text.now) }
    {
        let offset = text.std.offset.to_utc_offset();
        let standard = Held::new(text.std.name, offset, false);
        match &text.dst {
            None => Footer {
                standard,
                saving: None,
            },
            Some(saving) => Footer {
                standard,
                saving: Some(Yearly::of(saving, offset)),
            },
        }
    }

    /// What holds at a second from 1970-01-01 00:00:00 UTC, at most 800,000,000,000 in size.
    ///
    /// Daylight saving time holds from each year's start, read at the standard offset, up to, without, that year's end, read at
    /// the offset of daylight saving time, or, where the end lies before the start, the next year's. Both may lie past their
    /// year's edges, as that of `M12.5.0/150` does, so the year after and the two before are looked at too.
    #[tactic(auto, unfolding(crate::specs::FooterForce::held_at))]
    pub fn held_at(&self, second: i64) -> Held<'a>
        requires { unsigned_abs second ≤ 800_000_000_000 }
        ensures { held_shown result ≡ held_at (footer_shown self.now) second }
    {
        match &self.saving {
            None => self.standard.copied(),
            Some(saving) => {
                let holds = is_saving(
                    &saving.rule,
                    self.standard.offset(),
                    saving.held.offset(),
                    second,
                );
                if holds {
                    saving.held.copied()
                } else {
                    self.standard.copied()
                }
            }
        }
    }

    /// A later second up to which the same holds as at a second that has a date. Seconds are those from 1970-01-01 00:00:00 UTC.
    pub fn next_change(&self, second: i64) -> i64
        requires { HasDate second }
        ensures later { second <ℤ result }
        ensures same { (t : ℤ) → second ≤ℤ t → t <ℤ result → held_at (footer_shown self.now) t ≡ held_at (footer_shown self.now) second }
    {
        match &self.saving {
            None => i64::MAX,
            Some(saving) => next_change(
                &saving.rule,
                self.standard.offset(),
                saving.held.offset(),
                second,
            ),
        }
    }

    /// Whether it is standard time alone.
    pub fn is_fixed(&self) -> bool
        ensures { result ≡ is_fixed (footer_shown self.now) }
    {
        self.saving.is_none()
    }

    /// The offset of standard time, and that of daylight saving time, or the same once more where there is none.
    pub fn offsets(&self) -> (UtcOffset, UtcOffset)
        ensures standard { result.0 ≡ standard_total (footer_shown self.now) }
        ensures saving { result.1 ≡ saving_total (footer_shown self.now) }
    {
        match &self.saving {
            None => (self.standard.offset(), self.standard.offset()),
            Some(saving) => (self.standard.offset(), saving.held.offset()),
        }
    }
}

impl<'a> Yearly<'a> {
    /// Daylight saving time of a value, beside standard time.
    fn of(saving: &Saving<'a>, standard: UtcOffset) -> Yearly<'a>
        requires own { option_and_then offset_miss saving.now.offset ≡ None }
        requires rule { rule_range signed_times saving.now.rule ≡ None }
        requires standard { IsWritten standard }
        ensures held { held_shown result.held ≡ saving_kind (saving_shown saving.now) standard }
        ensures start { time_shown result.rule.start ≡ moment_of signed_times saving.now.rule.start }
        ensures end { time_shown result.rule.end ≡ moment_of signed_times saving.now.rule.end }
    {
        let offset = saving_offset(&saving.offset, standard);
        Yearly {
            held: Held::new(saving.name, offset, true),
            rule: YearlyRule::new(&saving.rule),
        }
    }
}
