//! Texts that are one edit apart.
ghost use Rattle.std.specs.{Prelude.{◌≡◌, ◌≤◌, length}, Char.{eq_ignore_ascii_case}, List.{common_prefix_len}};
ghost use Rattle.zone_texts.specs.{Edits.{is_one_edit}, Fronts.{are_swapped_in_front, is_edit_in_front}, Same.{same}};

/// Whether texts are the same but for the case of ASCII letters.
pub(crate) fn same(a: &[u8], b: &[u8]) -> bool
    ensures { result ≡ same a.now b.now }
{
    a.eq_ignore_ascii_case(b)
}

/// How many bytes at the front of two texts are the same.
fn same_in_front(a: &[u8], b: &[u8]) -> usize
    ensures count { result ≡ common_prefix_len eq_ignore_ascii_case a.now b.now }
    ensures within_a { result ≤ length a.now }
    ensures within_b { result ≤ length b.now }
{
    let shorter = a.len().min(b.len());
    for index in 0..shorter {
        if !a[index].eq_ignore_ascii_case(&b[index]) {
            return index;
        }
    }
    shorter
}

/// Whether two texts are the same once the first two bytes of one are swapped.
fn are_swapped_in_front(a: &[u8], b: &[u8]) -> bool
    ensures { result ≡ are_swapped_in_front a.now b.now }
{
    match (a, b) {
        ([first, second, rest @ ..], [other_first, other_second, other_rest @ ..]) => {
            other_first.eq_ignore_ascii_case(second)
                && other_second.eq_ignore_ascii_case(first)
                && same(other_rest, rest)
        }
        _ => false,
    }
}

/// Whether two texts are one edit apart by their first bytes.
fn is_edit_in_front(a: &[u8], b: &[u8]) -> bool
    ensures { result ≡ is_edit_in_front a.now b.now }
{
    match (a, b) {
        ([_, rest @ ..], [_, other_rest @ ..]) => {
            same(b, rest)
                || same(a, other_rest)
                || same(rest, other_rest)
                || are_swapped_in_front(a, b)
        }
        ([], _) => b.len() == 1,
        (_, []) => a.len() == 1,
    }
}

/// Whether two texts are one edit apart, blind to the case of ASCII letters.
pub(crate) fn is_one_edit(a: &[u8], b: &[u8]) -> bool
    ensures { result ≡ is_one_edit a.now b.now }
{
    let front = same_in_front(a, b);
    is_edit_in_front(&a[front..], &b[front..])
}
