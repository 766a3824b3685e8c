//! A summary of the answers, in place of the answers themselves.
ghost use Rattle.std.specs.{Prelude.{◌≡◌, [], ◌∷◌, ◌++◌, length, sum}, List.{concat}};
ghost use Rattle.zone_answers.specs.Summary.{summary};

use arrayvec::ArrayString;
use itoa::Buffer;
use zone_source::LineList;

/// The line `lines L bytes B sum S`, with its LF: how many lines there are, how many bytes in them, and the sum of these.
#[tactic(auto, unfolding(crate::specs::Summary::summary))]
pub(crate) fn summary_line(lines: &LineList) -> ArrayString<160>
    ensures { result.bytes ≡ summary lines.now ++ 10 ∷ [] }
{
    let mut digits = Buffer::new();
    let mut line = ArrayString::<160>::new();
    line.push_str("lines ");
    line.push_str(digits.format(lines.len()));
    line.push_str(" bytes ");
    line.push_str(digits.format(size_of(lines)));
    line.push_str(" sum ");
    line.push_str(digits.format(sum_of_lines(lines)));
    line.push_str("\n");
    line
}

/// How many bytes the lines have, without their line feeds.
#[tactic(auto, using(crate::proofs::SummaryLemmas::length_ended))]
fn size_of(lines: &LineList) -> usize
    ensures { result ≡ length (concat lines.now) }
{
    lines.as_bytes().len() - lines.len()
}

/// The sum of these bytes; each line feed is one of 10.
#[tactic(auto, using(crate::proofs::SummaryLemmas::sum_ended))]
fn sum_of_lines(lines: &LineList) -> u128
    ensures { result ≡ sum (concat lines.now) }
{
    sum_of(lines.as_bytes()) - 10 * lines.len() as u128
}

/// The sum of the bytes.
fn sum_of(bytes: &[u8]) -> u128
    ensures { result ≡ sum bytes.now }
{
    let mut total = 0u128;
    for byte in bytes {
        total += u128::from(*byte);
    }
    total
}
