//! Why a set has no file, found without memory.
ghost use Rattle.std.specs.{Prelude.{◌≡◌, ◌≢◌, ◌==◌, ◌+◌, ◌<◌, ◌≤◌, not, nat_le, ℕ, List, [], Some, true, int_lt, length, map, bytes_eq}, List.{list_all, list_any}};
ghost use Rattle.arrayvec.specs.ArrayVec.{array_vec_len};
ghost use Rattle.civil_base.specs.Ranges.{is_offset};
ghost use Rattle.zone_spans.specs.Entries.{total};
ghost use Rattle.tz_lookup.specs.{Sets.{schedule_of, shifts_of, span_in, IsAccepted}, Spans.{shift_at}};
ghost use Rattle.zone_tzif_core.specs.{Shown.{record_shown}, Tzif.{added, are_names, are_times, is_same, name_bytes, write_fault}, Zones.{rises}};
ghost use Rattle.zone_tzif.specs.{Causes.{kind_in, name_in, names_in, AddsKind, AreKinds}, Files.{IsFileFault}, Values.{kind_by, value_by, value_of}};

use crate::convert::Saves;
use crate::file::FileFault;
use arrayvec::ArrayVec;
use tz_lookup::SpanTable;
use zone_spans::FixedTimespan;
use zone_tzif_core::{Record, WriteFault};

/// The span of a number, or the first one where there is none of it.
fn span_or_first<S: SpanTable>(set: &S, number: usize) -> &FixedTimespan
    ensures { result.now ≡ span_in (S.seen set.now) number }
{
    if number <= set.entry_count() {
        set.span(number)
    } else {
        set.span(0)
    }
}

/// A span's kind, with its name lent.
fn record_of(saves: Saves, span: &FixedTimespan) -> Record<'_>
    requires { is_offset (total span.now) ≡ true }
    ensures { record_shown result ≡ kind_by saves span.now }
{
    let total = span.utc_offset + span.dst_offset;
    Record {
        utoff: total as i32,
        is_dst: saves.is_saved(span.dst_offset),
        name: span.name.as_str(),
    }
}

/// The kind of the span of a number.
pub(crate) fn kind_at<S: SpanTable>(saves: Saves, set: &S, number: usize) -> Record<'_>
    requires { IsAccepted (schedule_of (S.seen set.now)) }
    ensures { record_shown result ≡ kind_in saves (S.seen set.now) number }
{
    record_of(saves, span_or_first(set, number))
}

/// Its name.
fn name_at<S: SpanTable>(set: &S, number: usize) -> &str
    ensures { result.now ≡ name_in (S.seen set.now) number }
{
    span_or_first(set, number).name.as_str()
}

/// Whether two kinds are one.
fn is_same(a: &Record<'_>, b: &Record<'_>) -> bool
    ensures { result ≡ is_same (record_shown a.now) (record_shown b.now) }
{
    a.utoff == b.utoff && a.is_dst == b.is_dst && a.name == b.name
}

/// Whether a kind is among those of spans.
fn is_kept<S: SpanTable>(saves: Saves, set: &S, numbers: &[usize], kind: &Record<'_>) -> bool
    requires { IsAccepted (schedule_of (S.seen set.now)) }
    ensures { result ≡ list_any (is_same (record_shown kind.now)) (map (kind_in saves (S.seen set.now)) numbers.now) }
{
    for number in numbers {
        let same = is_same(kind, &kind_at(saves, set, *number));
        if same {
            return true;
        }
    }
    false
}

/// Adds a span where its kind is not among those of the spans before it. False where there is no room for it.
fn add_kind<S: SpanTable>(
    saves: Saves,
    set: &S,
    numbers: &mut ArrayVec<usize, 256>,
    span: usize,
) -> bool
    requires { IsAccepted (schedule_of (S.seen set.now)) }
    ensures { AddsKind saves (S.seen set.now) numbers.old.items span numbers.new.items result }
{
    let kept = is_kept(saves, set, numbers.as_slice(), &kind_at(saves, set, span));
    if kept {
        true
    } else if numbers.is_full() {
        false
    } else {
        numbers.push(span);
        true
    }
}

/// The spans that are the first of their kinds, or none where there are more than 256 of these.
fn distinct_kinds<S: SpanTable>(saves: Saves, set: &S) -> Option<ArrayVec<usize, 256>>
    requires { IsAccepted (schedule_of (S.seen set.now)) }
    ensures { AreKinds saves (S.seen set.now) result }
{
    let mut numbers = ArrayVec::new();
    for span in 0..set.entry_count() + 1 {
        if !add_kind(saves, set, &mut numbers, span) {
            return None;
        }
    }
    Some(numbers)
}

/// Whether a name is among those of spans.
fn is_named<S: SpanTable>(set: &S, numbers: &[usize], name: &str) -> bool
    ensures { result ≡ list_any (bytes_eq name.now) (map (name_in (S.seen set.now)) numbers.now) }
{
    for number in numbers {
        let same = name == name_at(set, *number);
        if same {
            return true;
        }
    }
    false
}

/// Adds a span where its name is not among those of the spans before it.
fn add_name<S: SpanTable>(set: &S, numbers: &mut ArrayVec<usize, 256>, span: usize)
    requires { array_vec_len numbers.old < 256 }
    ensures names { map (name_in (S.seen set.now)) numbers.new.items
        ≡ added bytes_eq (map (name_in (S.seen set.now)) numbers.old.items) (name_in (S.seen set.now) span) }
    ensures one { array_vec_len numbers.new ≤ array_vec_len numbers.old + 1 }
{
    let named = is_named(set, numbers.as_slice(), name_at(set, span));
    if !named {
        numbers.push(span);
    }
}

/// Of the first spans of kinds, the first of each name.
fn distinct_names<S: SpanTable>(set: &S, kinds: &[usize]) -> ArrayVec<usize, 256>
    requires { length kinds.now ≤ 256 }
    ensures { map (name_in (S.seen set.now)) result.items ≡ names_in (S.seen set.now) kinds.now }
{
    let mut names = ArrayVec::new();
    for kind in kinds {
        add_name(set, &mut names, *kind);
    }
    names
}

/// Whether a name has no zero byte.
fn has_no_zero(name: &str) -> bool
    ensures { result ≡ list_all (λ c. not (c == 0)) name.now }
{
    name.as_bytes().iter().all(|byte| *byte != 0)
}

/// Whether no name of the spans has a zero byte.
fn have_no_zero<S: SpanTable>(set: &S, numbers: &[usize]) -> bool
    ensures { result ≡ list_all (λ name. list_all (λ c. not (c == 0)) name) (map (name_in (S.seen set.now)) numbers.now) }
{
    for number in numbers {
        let clean = has_no_zero(name_at(set, *number));
        if !clean {
            return false;
        }
    }
    true
}

/// Whether their names take 256 bytes at most, each with a zero after it.
fn do_fit<S: SpanTable>(set: &S, numbers: &[usize]) -> bool
    ensures { result ≡ nat_le (length (name_bytes (map (name_in (S.seen set.now)) numbers.now))) 256 }
{
    let mut left = 256;
    for number in numbers {
        let size = name_at(set, *number).len();
        if left <= size {
            return false;
        }
        left -= size + 1;
    }
    true
}

/// Whether the names of kinds can be written.
#[tactic(auto, unfolding(zone_tzif_core::specs::Tzif::are_names))]
fn are_names<S: SpanTable>(set: &S, kinds: &[usize]) -> bool
    requires { length kinds.now ≤ 256 }
    ensures { result ≡ are_names (names_in (S.seen set.now) kinds.now) }
{
    let names = distinct_names(set, kinds);
    let names = names.as_slice();
    let clean = have_no_zero(set, names);
    let few = do_fit(set, names);
    clean & few
}

/// Whether an entry comes before the next.
fn is_before_next<S: SpanTable>(set: &S, place: usize) -> bool
    requires within { place + 1 < length (S.seen set.now).others }
    requires bound { place < 18446744073709551615 }
    ensures { result ≡ int_lt (shift_at (shifts_of (S.seen set.now)) place).0 (shift_at (shifts_of (S.seen set.now)) (place + 1)).0 }
{
    set.time(place) < set.time(place + 1)
}

/// Whether the times of the entries strictly rise.
fn do_rise<S: SpanTable>(set: &S) -> bool
    ensures { result ≡ rises (value_of (S.seen set.now) []).rest }
{
    for place in 1..set.entry_count() {
        let rises = is_before_next(set, place - 1);
        if !rises {
            return false;
        }
    }
    true
}

/// Whether they do, and are 4,294,967,295 at most.
fn are_times<S: SpanTable>(set: &S) -> bool
    ensures { result ≡ are_times (value_of (S.seen set.now) []).rest }
{
    let rises = do_rise(set);
    let few = set.entry_count() <= 4_294_967_295;
    rises & few
}

/// The first cause that a set has no file with any one footer that is one line, or want of memory where there is no cause. It takes
/// no memory itself, and compares each span with 256 others at most.
pub(crate) fn cause_of<S: SpanTable>(saves: Saves, set: &S) -> FileFault
    requires { IsAccepted (schedule_of (S.seen set.now)) }
    ensures { (footer : List ℕ) → write_fault (value_by saves (S.seen set.now) footer) ≢ Some WriteFault.Offset
        → write_fault (value_by saves (S.seen set.now) footer) ≢ Some WriteFault.Footer → IsFileFault result (write_fault (value_by saves (S.seen set.now) footer)) }
{
    let times = are_times(set);
    if !times {
        return FileFault::Times;
    }
    match distinct_kinds(saves, set) {
        Some(kinds) if are_names(set, kinds.as_slice()) => FileFault::NoMemory,
        Some(_) => FileFault::Names,
        None => FileFault::Types,
    }
}
