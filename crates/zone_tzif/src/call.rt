//! The call.
ghost use Rattle.std.specs.Prelude.{◌≡◌, ◌<◌, IfOk, MatchOption, MatchResult, None, string_bytes};
ghost use Rattle.tz_ever.specs.ZoneShown.{zone_set_of};
ghost use Rattle.tz_lookup.specs.Sets.{IsAccepted, schedule_of};
ghost use Rattle.zone_tzif.specs.{Forms.{Shows}, Tails.{CarriesForEver, CarriesNothing, IsFaultForEver, IsNotSaved, IsTailForEver, TextTells}, Tried.{ever_fault, ever_form, how_many, tried}};

use crate::agreeing::{Agreement, first_agreement};
use crate::faults::fault_in;
use crate::form::{Form, form_of};
use crate::outcome::{EverTail, EverTailFault};
use crate::saved::is_saved_for_good;
use crate::tried::tried_text;
use std::alloc::{AllocError, Global};
use tz_ever::ZoneSet;
use tz_lookup::SpanTable;
use tz_tzif::{Footer, one_footer};

/// How many footers are tried.
const HOW_MANY: u32 = 1_764;

/// The footer that carries a zone on for ever, and the entry from which on it says what the zone shows at every instant up to the end of
/// the year 9999: the offset, the abbreviation, and any saving but 0 as daylight saving time.
///
/// A zone without an entry in 2102 has a footer of standard time alone. One with two, with which daylight saving time starts and
/// ends, has a rule of two `M` or `J` dates, each with a time from -167 to 167 hours; its saving may lie below 0. Of those that name the
/// entries of 2102 the first is given that says the same for ever; it says so from the first entry from which it can.
///
/// # Errors
///
/// In this order, and each exactly where it says: `Saving`, `Shape`, `OffsetRange`, `Name`; `NoRule`. `NoMemory`, and never where one of
/// the first four is due.
pub fn tail_for_ever(alloc: Global, set: &ZoneSet) -> Result<EverTail, EverTailFault>
    ensures { MatchResult result (λ tail. IsTailForEver (zone_set_of set.now) tail.from (string_bytes tail.text)) (IsFaultForEver (zone_set_of set.now)) }
{
    tail_of(alloc, set.compact())
}

/// That of a set of spans.
fn tail_of<S: SpanTable>(alloc: Global, set: &S) -> Result<EverTail, EverTailFault>
    requires { IsAccepted (schedule_of (S.seen set.now)) }
    ensures { MatchResult result (λ tail. IsTailForEver (S.seen set.now) tail.from (string_bytes tail.text)) (IsFaultForEver (S.seen set.now)) }
{
    if is_saved_for_good(set) {
        return Err(EverTailFault::Saving);
    }
    let form = form_of(set);
    match fault_in(set, &form) {
        Some(fault) => Err(fault),
        None => first_tail(alloc, set, &form),
    }
}

/// The first of the footers that are tried.
fn first_tail<S: SpanTable>(alloc: Global, set: &S, form: &Form) -> Result<EverTail, EverTailFault>
    requires accepted { IsAccepted (schedule_of (S.seen set.now)) }
    requires form { Shows (S.seen set.now) (ever_form (S.seen set.now)) form.now }
    requires unsaved { IsNotSaved (S.seen set.now) }
    requires none { ever_fault (S.seen set.now) ≡ None }
    ensures { MatchResult result (λ tail. IsTailForEver (S.seen set.now) tail.from (string_bytes tail.text)) (IsFaultForEver (S.seen set.now)) }
{
    for number in 0..HOW_MANY {
        match tail_by(alloc, set, form, number) {
            Ok(Some(tail)) => return Ok(tail),
            Ok(None) => {}
            Err(_) => return Err(EverTailFault::NoMemory),
        }
    }
    Err(EverTailFault::NoRule)
}

/// One of them, where it carries the set on.
fn tail_by<S: SpanTable>(
    alloc: Global,
    set: &S,
    form: &Form,
    number: u32,
) -> Result<Option<EverTail>, AllocError>
    requires accepted { IsAccepted (schedule_of (S.seen set.now)) }
    requires form { Shows (S.seen set.now) (ever_form (S.seen set.now)) form.now }
    requires none { ever_fault (S.seen set.now) ≡ None }
    requires number { number < how_many }
    ensures { IfOk result (λ tail. MatchOption tail (CarriesNothing (S.seen set.now) (tried (S.seen set.now) number))
        (λ tail. CarriesForEver (S.seen set.now) tail.from (string_bytes tail.text) × (string_bytes tail.text ≡ tried (S.seen set.now) number))) }
{
    let text = tried_text(alloc, set, form, number)?;
    match text_agreement(text.as_str(), set) {
        Agreement::Nowhere => Ok(None),
        Agreement::From(second) => Ok(Some(EverTail {
            from: Some(second),
            text,
        })),
        Agreement::Always => Ok(Some(EverTail { from: None, text })),
    }
}

/// Where a text begins to say what a set shows for ever, as a footer.
fn text_agreement<S: SpanTable>(text: &str, set: &S) -> Agreement
    requires { IsAccepted (schedule_of (S.seen set.now)) }
    ensures { TextTells (S.seen set.now) text.now result }
{
    one_footer();
    match Footer::parse(text) {
        Some(footer) => first_agreement(&footer, set),
        None => Agreement::Nowhere,
    }
}
