//! What `%z` asks of a line, the texts of totals that it is written out as, and pairs of a ruleset and an offset, each once.
ghost use Rattle.std.specs.Prelude.{◌≡◌, option_map, string_bytes, IfOk, [], FitsSigned, OnOk, not};
ghost use Rattle.zone_plain.specs.{Formats.{around_mark}, Made.{around_text, with_format, with_ruleset}, Shown.{parts_shown, asked_shown, pair_shown}, Pairs.{asked, asked_by, is_same, with_pair, number_of}};
ghost use Rattle.zone_table.specs.Values.{line_value, info_value};
ghost use mir.Syntax.{w64};
ghost use Rattle.std.specs.List.{list_any};

use basics::{after_mark, cut};
use indexmap::IndexSet;
use std::alloc::{AllocError, Global};
use std::marker::Model;
use zone_line::{Line, Saving, Zone, ZoneInfo};

/// What stands before `%z` and what stands after it.
#[derive(Clone, Copy)]
pub(crate) struct Around<'t> {
    /// What stands before it.
    pub(crate) before: &'t str,
    /// What stands after it.
    pub(crate) after: &'t str,
}

/// The parts of a format with `%z`.
#[tactic(auto, unfolding(crate::specs::Formats::around_mark))]
fn around_mark(format: &str) -> Option<Around<'_>>
    ensures { option_map parts_shown result ≡ around_mark format.now }
{
    let (before, after) = cut('%', format)?;
    let after = after_mark('z', after)?;
    Some(Around { before, after })
}

/// The parts of a format around a text.
#[tactic(auto, using(std::proofs::Common::append_assoc))]
pub(crate) fn around_text(
    alloc: Global,
    parts: &Around<'_>,
    text: &str,
) -> Result<String, AllocError>
    ensures { IfOk result (λ format. string_bytes format ≡ around_text (parts_shown parts.now) text.now) }
{
    let mut format = String::new(alloc);
    format.push_str(parts.before)?;
    format.push_str(text)?;
    format.push_str(parts.after)?;
    Ok(format)
}

/// What `%z` asks of a line.
#[derive(Clone, Copy)]
pub(crate) enum Asked<'t> {
    /// There is no `%z`.
    Nothing,
    /// The text of this total, in seconds.
    Total(Around<'t>, i64),
    /// What the ruleset that is made for this pair says.
    Under(Around<'t>, Pair<'t>),
}

/// What `%z` asks of what a line says of a stretch of time.
#[tactic(auto, unfolding(crate::specs::Pairs::asked_by))]
fn asked_by<'t>(info: &ZoneInfo<'t>) -> Asked<'t>
    ensures { asked_shown result ≡ asked_by (info_value info.now) }
{
    let Some(parts) = around_mark(info.format) else {
        return Asked::Nothing;
    };
    let offset = info.utc_offset.as_seconds();
    match info.saving {
        Saving::NoSaving => Asked::Total(parts, offset),
        Saving::OneOff(amount) => Asked::Total(parts, offset + amount.as_seconds()),
        Saving::Multiple(rules) => Asked::Under(parts, Pair { offset, rules }),
    }
}

/// What `%z` asks of a line.
pub(crate) fn asked_of<'t>(line: &Line<'t>) -> Asked<'t>
    ensures { asked_shown result ≡ asked (line_value line.now) }
{
    match line {
        Line::Zone(zone) => asked_by(&zone.info),
        Line::Continuation(info) => asked_by(info),
        Line::Space | Line::Rule(_) | Line::Link(_) => Asked::Nothing,
    }
}

/// The line with another format.
pub(crate) fn with_format<'a>(line: &Line<'a>, format: &'a str) -> Line<'a>
    ensures { line_value result ≡ with_format (line_value line.now) format.now }
{
    match *line {
        Line::Zone(zone) => Line::Zone(Zone {
            name: zone.name,
            info: ZoneInfo {
                format,
                ..zone.info
            },
        }),
        Line::Continuation(info) => Line::Continuation(ZoneInfo { format, ..info }),
        Line::Space => Line::Space,
        Line::Rule(rule) => Line::Rule(rule),
        Line::Link(link) => Line::Link(link),
    }
}

/// The line under another ruleset.
pub(crate) fn with_ruleset<'a>(line: &Line<'a>, name: &'a str) -> Line<'a>
    ensures { line_value result ≡ with_ruleset (line_value line.now) name.now }
{
    match *line {
        Line::Zone(zone) => Line::Zone(Zone {
            name: zone.name,
            info: ZoneInfo {
                saving: Saving::Multiple(name),
                ..zone.info
            },
        }),
        Line::Continuation(info) => Line::Continuation(ZoneInfo {
            saving: Saving::Multiple(name),
            ..info
        }),
        Line::Space => Line::Space,
        Line::Rule(rule) => Line::Rule(rule),
        Line::Link(link) => Line::Link(link),
    }
}

/// A ruleset and a standard offset in seconds.
#[derive(Clone, Copy, PartialEq, Eq, Hash, Drop)]
pub(crate) struct Pair<'t> {
    /// The offset.
    pub(crate) offset: i64,
    /// The name of the ruleset.
    pub(crate) rules: &'t str,
}

/// The offset of a pair, in seconds.
pub(crate) fn offset_of(pair: &Pair<'_>) -> i64
    ensures value { result ≡ pair.now.offset }
    ensures fits { FitsSigned w64 pair.now.offset }
{
    pair.offset
}

/// The pairs that were asked for so far. Contracts see them in the order in which they came.
#[derive(Drop)]
pub(crate) struct Pairs<'t> {
    met: IndexSet<Pair<'t>>,
}

impl<'t> Model for Pairs<'t> {
    ghost use Rattle.std.specs.Prelude.{List, map};
    ghost use Rattle.zone_plain.specs.Shown.{pair_shown};
    ghost use Rattle.zone_plain.specs.Pairs as of_pair;

    ghost Value = { List of_pair.Pair };

    ghost view = { λ pairs. map pair_shown pairs.met.keys };
}

impl<'t> Pairs<'t> {
    /// No pair was asked for yet.
    pub(crate) fn new(alloc: Global) -> Pairs<'t>
        ensures { result ≡ [] }
    {
        Pairs {
            met: IndexSet::new(alloc),
        }
    }

    /// The number of a pair, which counts from 0, and whether the pair was added: it joins the others where it isn't among them.
    pub(crate) fn number(&mut self, pair: Pair<'t>) -> Result<(usize, bool), AllocError>
        ensures pairs { OnOk result (self.new ≡ with_pair self.old (pair_shown pair.entry)) }
        ensures number { IfOk result (λ found. found.0 ≡ number_of self.old (pair_shown pair.entry)) }
        ensures added { IfOk result (λ found. found.1 ≡ not (list_any (is_same (pair_shown pair.entry)) self.old)) }
    {
        let (number, is_new) = self.met.insert_full(pair)?;
        Ok((number, is_new))
    }
}
