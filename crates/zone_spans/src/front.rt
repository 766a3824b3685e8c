//! The rules that apply to a year, by the marks of their times, and what fires first of them.
ghost use Rattle.std.specs.{Prelude.{◌≡◌, All, IfOk, IfSome, IsTrue, [], pos, ◌≤ℤ◌}, Option.{option_copied}};
ghost use Rattle.basics.specs.Sorted.{stable_sort};
ghost use Rattle.zone_table.specs.LineBounds.{are_small_seconds};
ghost use Rattle.zone_spans.specs.{Bounds.{can_fire, has_moment, is_bounded_firing, is_end, is_small}, Fronts.{by_mark, first_of, fires_sooner, fronts_of, head_of, in_order, is_below, left, next_firing, sooner, tail_of, with_placed}};
ghost use Rattle.zone_spans.specs.Placed.{placed_at, placed_from, time_of};

use crate::firing::Firing;
use crate::year::is_over;
use basics::Items;
use std::alloc::{AllocError, Global};
use std::marker::Model;
use zone_table::{ChangeTime, RuleInfo, TimeType, instant_of};

/// A rule that applies to a year, its place among all, and its local second in the year.
#[derive(Drop)]
pub(crate) struct Placed<'a> {
    place: usize,
    local: i64,
    rule: &'a RuleInfo,
}

impl<'a> Model for Placed<'a> {
    ghost use Rattle.zone_spans.specs.Placed.{IsSmallAt, Placed};

    ghost Value = { Placed };

    ghost view = { λ p. record { place = p.place; local = p.local; rule = p.rule.now } };

    ghost invariant = { λ p. IsSmallAt p.local p.rule.now };
}

impl<'a> Placed<'a> {
    fn new(place: usize, rule: &'a RuleInfo, year: i64) -> Placed<'a>
        requires first_year { pos 1 ≤ℤ year }
        requires last_year { year ≤ℤ pos 9999 }
        requires rule { IsTrue (has_moment year rule.now) }
        ensures { result ≡ placed_at year place rule.now }
    {
        let local = rule.absolute_datetime(year, 0, 0);
        Placed { place, local, rule }
    }

    /// When the rule fires.
    fn time(&self, offset: i64, saving: i64) -> i64
        requires offset { IsTrue (are_small_seconds offset) }
        requires saving { IsTrue (are_small_seconds saving) }
        ensures value { result ≡ time_of offset saving self.now }
        ensures small { IsTrue (is_small result) }
    {
        instant_of(self.rule.time_type, self.local, offset, saving)
    }
}

/// Whether a rule fires before another.
fn fires_sooner(one: &Placed<'_>, other: &Placed<'_>, offset: i64, saving: i64) -> bool
    requires offset { IsTrue (are_small_seconds offset) }
    requires saving { IsTrue (are_small_seconds saving) }
    ensures { result ≡ fires_sooner offset saving one.now other.now }
{
    let time = one.time(offset, saving);
    let other_time = other.time(offset, saving);
    time < other_time || (!(other_time < time) && one.place < other.place)
}

/// The sooner of two rules, where there are both.
fn sooner<'b, 'a>(
    one: Option<&'b Placed<'a>>,
    other: Option<&'b Placed<'a>>,
    offset: i64,
    saving: i64,
) -> Option<&'b Placed<'a>>
    requires offset { IsTrue (are_small_seconds offset) }
    requires saving { IsTrue (are_small_seconds saving) }
    ensures { option_copied result ≡ sooner offset saving (option_copied one.entry) (option_copied other.entry) }
{
    match other {
        None => one,
        Some(b) => match one {
            None => Some(b),
            Some(a) => {
                if fires_sooner(b, a, offset, saving) {
                    Some(b)
                } else {
                    Some(a)
                }
            }
        },
    }
}

/// The rules that apply to a year, in a front for each mark: in order of local second, and where those tie of place.
#[derive(Drop)]
pub(crate) struct YearRules<'a> {
    wall: Items<Placed<'a>>,
    standard: Items<Placed<'a>>,
    utc: Items<Placed<'a>>,
}

impl<'a> YearRules<'a> {
    /// Those of the rules that apply to the year.
    pub(crate) fn new(
        alloc: Global,
        rules: &'a [RuleInfo],
        year: i64,
    ) -> Result<YearRules<'a>, AllocError>
        requires first_year { pos 1 ≤ℤ year }
        requires last_year { year ≤ℤ pos 9999 }
        requires rules { All (λ r. IsTrue (can_fire year r)) rules.now }
        ensures { IfOk result (λ found. found ≡ fronts_of (placed_from year 0 rules.now)) }
    {
        let mut found = YearRules {
            wall: Items::new(alloc),
            standard: Items::new(alloc),
            utc: Items::new(alloc),
        };
        found.add_applying(rules, year)?;
        found.sort()?;
        Ok(found)
    }

    /// Adds those of the rules that apply to the year.
    fn add_applying(&mut self, rules: &'a [RuleInfo], year: i64) -> Result<(), AllocError>
        requires empty { self.old ≡ by_mark [] }
        requires first_year { pos 1 ≤ℤ year }
        requires last_year { year ≤ℤ pos 9999 }
        requires rules { All (λ r. IsTrue (can_fire year r)) rules.now }
        ensures { IfOk result (λ _. self.new ≡ by_mark (placed_from year 0 rules.now)) }
    {
        for place in 0..rules.len() {
            let rule = &rules[place];
            if rule.applies_to_year(year) {
                self.add(Placed::new(place, rule, year))?;
            }
        }
        Ok(())
    }

    fn add(&mut self, placed: Placed<'a>) -> Result<(), AllocError>
        ensures { IfOk result (λ _. self.new ≡ with_placed placed.entry self.old) }
    {
        match placed.rule.time_type {
            TimeType::Wall => self.wall.push(placed),
            TimeType::Standard => self.standard.push(placed),
            TimeType::UTC => self.utc.push(placed),
        }
    }

    /// Sorts each front by local second. Those of one second keep their order.
    fn sort(&mut self) -> Result<(), AllocError>
        ensures { IfOk result (λ _. self.new ≡ in_order self.old) }
    {
        sort(&mut self.wall)?;
        sort(&mut self.standard)?;
        sort(&mut self.utc)
    }

    /// The fronts.
    pub(crate) fn fronts(&self) -> Fronts<'_, 'a>
        ensures { result ≡ self.now }
    {
        Fronts {
            wall: self.wall.as_slice(),
            standard: self.standard.as_slice(),
            utc: self.utc.as_slice(),
        }
    }
}

/// Sorts by local second. Those of one second keep their order.
fn sort(items: &mut Items<Placed<'_>>) -> Result<(), AllocError>
    ensures { IfOk result (λ _. items.new ≡ stable_sort is_below items.old) }
{
    items.sort_by_key(|placed| placed.local)
}

/// What is left of three fronts.
#[derive(Drop)]
pub(crate) struct Fronts<'b, 'a> {
    wall: &'b [Placed<'a>],
    standard: &'b [Placed<'a>],
    utc: &'b [Placed<'a>],
}

impl<'b, 'a> Model for Fronts<'b, 'a> {
    ghost use Rattle.zone_spans.specs.declared.front.YearRules.{YearRules};

    ghost Value = { YearRules };

    ghost view = { λ fronts. record { wall = fronts.wall.now; standard = fronts.standard.now; utc = fronts.utc.now } };
}

impl<'b, 'a> Fronts<'b, 'a> {
    /// The rule that fires first.
    fn first(&self, offset: i64, saving: i64) -> Option<&'b Placed<'a>>
        requires offset { IsTrue (are_small_seconds offset) }
        requires saving { IsTrue (are_small_seconds saving) }
        ensures { option_copied result ≡ first_of offset saving self.now }
    {
        let later = sooner(head_of(self.standard), head_of(self.utc), offset, saving);
        sooner(head_of(self.wall), later, offset, saving)
    }

    /// Takes the first of a mark away.
    fn take(&mut self, mark: TimeType)
        ensures { self.new ≡ left mark self.old }
    {
        match mark {
            TimeType::Wall => self.wall = tail_of(self.wall),
            TimeType::Standard => self.standard = tail_of(self.standard),
            TimeType::UTC => self.utc = tail_of(self.utc),
        }
    }

    /// Takes away what fires first, unless it is over by then, and gives its firing.
    pub(crate) fn next(
        &mut self,
        end: Option<ChangeTime>,
        offset: i64,
        saving: i64,
    ) -> Option<Firing<'a>>
        requires end { IsTrue (is_end end) }
        requires offset { IsTrue (are_small_seconds offset) }
        requires saving { IsTrue (are_small_seconds saving) }
        ensures firing { result ≡ next_firing end offset saving self.old }
        ensures left { IfSome result (λ f. self.new ≡ left f.rule.time_type self.old) }
        ensures small { IfSome result (λ f. IsTrue (is_bounded_firing f)) }
    {
        let Some(placed) = self.first(offset, saving) else {
            return None;
        };
        let time = placed.time(offset, saving);
        if is_over(end, offset, saving, time) {
            return None;
        }
        let rule = placed.rule;
        self.take(rule.time_type);
        Some(Firing { time, rule })
    }
}

fn head_of<'b, 'a>(front: &'b [Placed<'a>]) -> Option<&'b Placed<'a>>
    ensures { option_copied result ≡ head_of front.now }
{
    match front {
        [head, ..] => Some(head),
        [] => None,
    }
}

fn tail_of<'b, 'a>(front: &'b [Placed<'a>]) -> &'b [Placed<'a>]
    ensures { result.now ≡ tail_of front.now }
{
    match front {
        [_, rest @ ..] => rest,
        [] => front,
    }
}
