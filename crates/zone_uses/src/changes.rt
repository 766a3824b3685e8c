//! The changes of a zone.
ghost use Rattle.std.specs.Prelude.{◌≡◌, map};
ghost use Rattle.zone_uses.specs.Answers.{next_after};

use sefunjaro::FixedTimespanSet;

/// The second of the first change after an instant, in seconds from 1970-01-01 00:00:00 UTC; none where there is none. The times
/// of a compiled set don't fall; of a set made by hand whose times do, it is the first in the set's order.
pub fn next_change(set: &FixedTimespanSet, after: i64) -> Option<i64>
    ensures { result ≡ next_after (map (λ entry. entry.0) set.now.others) after }
{
    set.others
        .as_slice()
        .iter()
        .map(|entry| entry.0)
        .find(|time| after < *time)
}
