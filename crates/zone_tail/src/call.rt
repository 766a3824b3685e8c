//! The call.
ghost use Rattle.std.specs.Prelude.{◌≡◌, ◌≤◌, IfOk, MatchResult, None, length, string_bytes};
ghost use Rattle.tz_lookup.specs.Sets.{IsAccepted, schedule_of, shifts_of};
ghost use Rattle.zone_tail.specs.{LastYear.{form as form_in, standard_of}, Carried.{CarriesOn}, Ready.{IsChosen, IsReady}, Shapes.{IsForm}, Tails.{IsFaultOf, IsTail, beginning, candidates, names_of, tail_fault}};

use crate::candidate::Candidate;
use crate::candidates::candidates_of;
use crate::choice::choose;
use crate::faults::fault_in;
use crate::last_year::{Form, form_of, standard_of};
use crate::outcome::{Tail, TailFault};
use crate::spans::entry_span;
use crate::text::candidate_text;
use std::alloc::{AllocError, Global};
use tz_lookup::{RULES_END, SpanTable};

/// Later than any entry.
const FAR: i64 = 1 << 41;

/// The POSIX TZ string that carries a set on, and the first entry from which on its offset is the set's at every instant up to
/// the end of the last year, 2099 by clocks of the standard offset in force at the beginning of 2100 UTC.
///
/// The set is a `FixedTimespanSet`, a `CompactSet` or whatever else gives spans by number, and one that a `Tz` can be made of. Memory
/// is taken for the candidates and the string alone, and none before it is known that there is a string.
///
/// A set without an entry in that year has one string, of standard time alone. A set with two, with which daylight saving time
/// starts and ends, has up to four, with a rule of two `M` dates; it begins with an entry from 1800 on. Of the strings that reach
/// back furthest the first is given, where the fifth weekday comes before the others, of the start and then of the end.
///
/// # Errors
///
/// In this order, and each exactly where it says: `Shape`, `OffsetRange`, `Name`; `NoMemory`, and never where one of these is due.
pub fn tail<S: SpanTable>(alloc: Global, set: &S) -> Result<Tail, TailFault>
    requires { IsAccepted (schedule_of (S.seen set.now)) }
    ensures told { MatchResult result (λ tail. IsTail (S.seen set.now) tail.from (string_bytes tail.text)) (IsFaultOf (S.seen set.now)) }
    ensures read { IfOk result (λ tail. CarriesOn (S.seen set.now) tail.from (string_bytes tail.text)) }
{
    let offset = standard_of(set);
    let form = form_of(set, offset);
    match fault_in(set, &form, offset) {
        Some(fault) => Err(fault),
        None => match written(alloc, set, &form, offset) {
            Ok(tail) => Ok(tail),
            Err(_) => Err(TailFault::NoMemory),
        },
    }
}

/// The string of a set that has one.
fn written<S: SpanTable>(
    alloc: Global,
    set: &S,
    form: &Form,
    offset: i64,
) -> Result<Tail, AllocError>
    requires accepted { IsAccepted (schedule_of (S.seen set.now)) }
    requires offset { offset ≡ standard_of (S.seen set.now) }
    requires form { IsForm (S.seen set.now) form.now }
    requires none { tail_fault (S.seen set.now) ≡ None }
    ensures told { IfOk result (λ tail. IsTail (S.seen set.now) tail.from (string_bytes tail.text)) }
    ensures read { IfOk result (λ tail. CarriesOn (S.seen set.now) tail.from (string_bytes tail.text)) }
{
    let list = candidates_of(alloc, set, form, offset)?;
    let (candidate, span) = chosen(list.as_slice(), set, form, offset);
    tail_of(alloc, set, form, &candidate, span)
}

/// The candidate that is given, and the span from which on it agrees.
fn chosen<S: SpanTable>(list: &[Candidate], set: &S, form: &Form, offset: i64) -> (Candidate, usize)
    requires list { list.now ≡ candidates (S.seen set.now) }
    requires accepted { IsAccepted (schedule_of (S.seen set.now)) }
    requires offset { offset ≡ standard_of (S.seen set.now) }
    requires form { IsForm (S.seen set.now) form.now }
    requires none { tail_fault (S.seen set.now) ≡ None }
    ensures { IsChosen (S.seen set.now) result.0 result.1 }
{
    let last = last_second(set, form, offset);
    let choice = choose(list, set, last);
    (list[choice.index], choice.span)
}

/// Its text, and the beginning of the span.
fn tail_of<S: SpanTable>(
    alloc: Global,
    set: &S,
    form: &Form,
    candidate: &Candidate,
    span: usize,
) -> Result<Tail, AllocError>
    requires form { IsForm (S.seen set.now) form.now }
    requires none { tail_fault (S.seen set.now) ≡ None }
    requires chosen { IsChosen (S.seen set.now) candidate.now span }
    ensures told { IfOk result (λ tail. IsTail (S.seen set.now) tail.from (string_bytes tail.text)) }
    ensures read { IfOk result (λ tail. CarriesOn (S.seen set.now) tail.from (string_bytes tail.text)) }
{
    let (standard, saving) = names(set, form);
    let text = candidate_text(alloc, standard, saving, candidate)?;
    Ok(Tail {
        from: beginning(set, span),
        text,
    })
}

/// A second by which the candidates are told apart: that at which the last year ends, or, of one total, when its span ends.
fn last_second<S: SpanTable>(set: &S, form: &Form, offset: i64) -> i64
    requires accepted { IsAccepted (schedule_of (S.seen set.now)) }
    requires offset { offset ≡ standard_of (S.seen set.now) }
    requires form { IsForm (S.seen set.now) form.now }
    requires none { tail_fault (S.seen set.now) ≡ None }
    ensures { IsReady (S.seen set.now) result }
{
    match form {
        Form::Steady(span) => {
            if *span < set.entry_count() {
                set.time(*span)
            } else {
                FAR
            }
        }
        Form::Yearly { .. } => RULES_END - offset,
        Form::Other => unreachable!(),
    }
}

/// The names of standard and of daylight saving time.
fn names<'a, S: SpanTable>(set: &'a S, form: &Form) -> (&'a str, &'a str)
    requires { IsForm (S.seen set.now) form.now }
    ensures standard { result.0.now ≡ (names_of (form_in (S.seen set.now))).0 }
    ensures saving { result.1.now ≡ (names_of (form_in (S.seen set.now))).1 }
{
    match form {
        Form::Steady(span) => (set.span(*span).name.as_str(), ""),
        Form::Yearly { start, end } => (
            entry_span(set, *end).name.as_str(),
            entry_span(set, *start).name.as_str(),
        ),
        Form::Other => ("", ""),
    }
}

/// When a span begins.
fn beginning<S: SpanTable>(set: &S, span: usize) -> Option<i64>
    requires { span ≤ length (S.seen set.now).others }
    ensures { result ≡ beginning (shifts_of (S.seen set.now)) span }
{
    if span == 0 {
        None
    } else {
        Some(set.time(span - 1))
    }
}
