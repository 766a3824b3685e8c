//! A search by halves over indices whose order is known by asking, and the steps that it counts.
ghost use Rattle.std.specs.{Prelude.{◌≡◌, ◌≢◌, ℕ, ◌+◌, ◌-◌, ◌*◌, ◌^◌, ◌<◌, ◌≤◌, MatchOption}, declared.cmp.Ordering.{Ordering}, declared.cmp.Ordering.TheVariants.{Equal}};
ghost use Rattle.tz_lookup.specs.Search.{GoesUp};

use std::cmp::Ordering;
use std::marker::Model;
use std::sync::ledger::{Blank, Book, Ledger, Share};

/// Indices that lie before, at or after what is looked for.
pub trait Probe {
    /// The indices that may be asked about.
    ghost has: { Self → ℕ → Type 0 };

    /// Whether an index lies before, at or after what is looked for.
    ghost order: { Self → ℕ → Ordering };

    /// Whether an index lies before, at or after what is looked for. This is one step.
    fn probe<L: Ledger>(&self, index: usize, steps: &mut Steps<L>) -> Ordering
        requires { has self.now index }
        ensures order { result ≡ order self.now index }
        ensures step { steps.new ≡ steps.old + 1 };
}

/// Indices that are asked about at the cost of one ledger: what is generic in the ledger can open none of its own for it.
trait ProbeBy<L: Ledger> {
    /// The indices that may be asked about.
    ghost has: { Self → ℕ → Type 0 };

    /// Whether an index lies before, at or after what is looked for.
    ghost order: { Self → ℕ → Ordering };

    /// Whether an index lies before, at or after what is looked for. This is one step.
    fn probe_by(&self, index: usize, steps: &mut Steps<L>) -> Ordering
        requires { has self.now index }
        ensures order { result ≡ order self.now index }
        ensures step { steps.new ≡ steps.old + 1 };
}

/// A probe, at the cost of any one ledger.
#[derive(Drop)]
struct By<'a, P: Probe> {
    probe: &'a P,
}

impl<'a, P: Probe, L: Ledger> ProbeBy<L> for By<'a, P> {
    ghost has = { λ by k. P.has by.probe.now k };

    ghost order = { λ by k. P.order by.probe.now k };

    fn probe_by(&self, index: usize, steps: &mut Steps<L>) -> Ordering {
        self.probe.probe(index, steps)
    }
}

/// An index from `start` up to, without, `end` that lies at what is looked for, or none exactly where none does. The
/// indices go from those before it over those at it to those after it. It takes s steps with 2^s <= 2n + 1 for n indices.
pub fn binary_search<P: Probe, L: Ledger>(
    start: usize,
    end: usize,
    probe: &P,
    steps: &mut Steps<L>,
) -> Option<usize>
    requires order { start ≤ end }
    requires has { (k : ℕ) → start ≤ k → k < end → P.has probe.now k }
    requires sorted { GoesUp (P.order probe.now) start end }
    ensures found { MatchOption result
        ((k : ℕ) → start ≤ k → k < end → P.order probe.now k ≢ Equal)
        (λ i. (start ≤ i) × (i < end) × (P.order probe.now i ≡ Equal)) }
    ensures cost { 2 ^ (steps.new - steps.old) ≤ 2 * (end - start) + 1 }
    ensures later { steps.old ≤ steps.new }
{
    halve(start, end, &By { probe }, steps)
}

/// The search itself. It knows of the probe only at the cost of `steps`, so it asks nothing uncounted.
fn halve<L: Ledger, P: ProbeBy<L>>(
    start: usize,
    end: usize,
    probe: &P,
    steps: &mut Steps<L>,
) -> Option<usize>
    requires order { start ≤ end }
    requires has { (k : ℕ) → start ≤ k → k < end → P.has probe.now k }
    requires sorted { GoesUp (P.order probe.now) start end }
    ensures found { MatchOption result
        ((k : ℕ) → start ≤ k → k < end → P.order probe.now k ≢ Equal)
        (λ i. (start ≤ i) × (i < end) × (P.order probe.now i ≡ Equal)) }
    ensures cost { 2 ^ (steps.new - steps.old) ≤ 2 * (end - start) + 1 }
    ensures later { steps.old ≤ steps.new }
{
    let mut low = start;
    let mut high = end;
    'search: while low < high {
        let middle = low + (high - low) / 2;
        match probe.probe_by(middle, steps) {
            Ordering::Equal => return Some(middle),
            Ordering::Less => low = middle + 1,
            Ordering::Greater => high = middle,
        }
    }
    None
}

/// How many steps a search has taken. It takes no bytes at run time, and only a step changes it.
#[derive(Drop)]
pub struct Steps<L: Ledger> {
    book: Book<L>,
    share: Share<L>,
}

impl<L: Ledger> Model for Steps<L> {
    ghost use Rattle.std.specs.Prelude.{ℕ, ◌<◌};

    ghost Value = { ℕ };

    ghost view = { λ steps. steps.book.total };

    ghost invariant = { λ steps. 0 < steps.share.parts };
}

impl<L: Ledger> Steps<L> {
    /// No step yet, in the ledger that begins with this blank: one of `L`, in one part or more.
    pub fn new(blank: Blank) -> Steps<L>
        requires name { blank.name ≡ L.name }
        requires parts { blank.parts ≡ L.parts }
        requires some { 0 < L.parts }
        ensures { result ≡ 0 }
    {
        let (book, share) = blank.open();
        Steps { book, share }
    }

    /// One step more.
    pub fn tick(&mut self)
        ensures { self.new ≡ self.old + 1 }
    {
        self.book.add(&mut self.share, 1);
    }
}
