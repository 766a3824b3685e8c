//! What fires, and what has fired so far.
ghost use Rattle.std.specs.{Prelude.{◌≡◌, IfOk, [], pos, int_lt, IsTrue}, List.{list_all}, Option.{option_to_list}, Ordering.{int_eq}};
ghost use Rattle.zone_spans.specs.Listing.{is_at};

use std::alloc::{AllocError, Global};
use std::marker::Model;
use zone_table::RuleInfo;

/// When a rule fires, in seconds from 1970-01-01 00:00 UTC, and the rule.
#[derive(Drop)]
pub(crate) struct Firing<'a> {
    pub(crate) time: i64,
    pub(crate) rule: &'a RuleInfo,
}

impl<'a> Model for Firing<'a> {
    ghost use Rattle.zone_spans.specs.Firings.{Firing};

    ghost Value = { Firing };

    ghost view = { λ firing. record { time = firing.time; rule = firing.rule.now } };
}

impl<'a> Firing<'a> {
    /// A copy.
    pub(crate) fn copy(&self) -> Firing<'a>
        ensures { result ≡ self.now }
    {
        Firing {
            time: self.time,
            rule: self.rule,
        }
    }

    pub(crate) fn is_at(&self, start: i64) -> bool
        ensures { result ≡ is_at start self.now }
    {
        self.time == start
    }

    pub(crate) fn is_above(&self, start: i64) -> bool
        ensures { result ≡ int_lt start self.now.time }
    {
        start < self.time
    }

    pub(crate) fn is_below(&self, start: i64) -> bool
        ensures { result ≡ int_lt self.now.time start }
    {
        self.time < start
    }

    /// Whether no saving is in force from then on.
    pub(crate) fn is_standard(&self) -> bool
        ensures { result ≡ int_eq self.now.rule.time_to_add (pos 0) }
    {
        self.rule.time_to_add == 0
    }
}

/// What a line has fired so far, and the saving in force after it.
#[derive(Drop)]
pub(crate) struct Firings<'a> {
    pub(crate) fired: Vec<Firing<'a>>,
    pub(crate) saving: i64,
}

impl<'a> Firings<'a> {
    /// Nothing has fired, and no saving is in force.
    pub(crate) fn new(alloc: Global) -> Firings<'a>
        ensures fired { result.fired.items ≡ [] }
        ensures saving { result.saving ≡ pos 0 }
    {
        Firings {
            fired: Vec::new(alloc),
            saving: 0,
        }
    }

    /// Leaves none, with that saving in force.
    pub(crate) fn restart(&mut self, saving: i64)
        ensures fired { self.new.fired.items ≡ [] }
        ensures saving { self.new.saving ≡ saving }
    {
        self.fired.clear();
        self.saving = saving;
    }

    /// Leaves that firing alone, or none, with that saving in force after it.
    pub(crate) fn begin(&mut self, last: Option<Firing<'a>>, saving: i64) -> Result<(), AllocError>
        ensures fired { IfOk result (λ _. self.new.fired.items ≡ option_to_list last.entry) }
        ensures saving { IfOk result (λ _. self.new.saving ≡ saving) }
    {
        self.restart(saving);
        if let Some(firing) = last {
            self.fired.push(firing)?;
        }
        Ok(())
    }
}
