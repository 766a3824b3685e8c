//! A source in any form that `zic` reads: its names, its zones, their files and strings, and the tree.
ghost use Rattle.std.specs.Prelude.{◌≡◌, ℕ, List, map, option_map, Ok, Err, IfErr, IfOk, IfSome};
ghost use Rattle.sefunjaro.specs.{AnySources.{IsAnySource}, Replies.{reply_view}, Sources.{release_in, table_in}, Zones.{all_in, ever_in, origin_in, recurrence_in}};
ghost use Rattle.tz_ever.specs.ZoneShown.{zone_set_of};
ghost use Rattle.tz_lookup.specs.Sets.{IsAccepted, schedule_of};
ghost use Rattle.zone_command.specs.{Answers.{IsGiven}, Refusals.{IsTold}, Sources.{HasFault}, Views.{IsToldAs, entries_of, entry_of, ever_found, found_in, unknown_words}, Wholes.{IsFileOf, IsStringOf, IsTreeBy, IsWhole, OfTreeTo2099}};
ghost use Rattle.zone_texts.specs.SeenNames.{name_seen};
ghost use Rattle.zone_tree.specs.EverTrees.{OfTree};
ghost use Rattle.zone_table.specs.declared.table.Table.{Table};

use crate::forms::{form_of, look_at};
use crate::line::name_words;
use crate::over::PlainSource;
use crate::plain::PlainStream;
use crate::source::{Refusal, ZoneSource};
use crate::source_words::{fault_words, file_words, schedule_words, tail_words, why_words};
use sefunjaro::{
    AnySourceFault, EverFileFault, EverTailFault, OpenFault, OpenSource, OpenZone, Table,
    TreeFault, ZoneFault, ZoneSet, tail_for_ever, tzif_for_ever,
};
use std::alloc::{AllocError, Global};
use zone_outside::Exchange;
use zone_texts::{NameEntry, add_unknown, near_names};
use zone_tree::{tree_of_table, tree_of_table_for_ever};
use zone_tzif::FileFault;
use zone_words::{StreamEnd, run_stream};

/// A source in any form, whose zones go on for ever where their lines do.
#[derive(Drop)]
pub struct AnySource {
    source: OpenSource,
}

impl ZoneSource for AnySource {
    ghost use Rattle.sefunjaro.specs.Sources.{release_in, table_in};
    ghost use Rattle.zone_command.specs.{Sources.{IsRead, IsUnread, form_of}, Views.{entries_of, found_in}, Wholes.{IsFileOf, IsStringOf, IsTreeOf, IsWhole}};

    type Zone = OpenZone;

    ghost reads = { λ text source. IsRead text source.source };

    ghost unread = { IsUnread };

    ghost found = { λ source. found_in (table_in source.source) };

    ghost entries = { λ source. entries_of (table_in source.source) };

    ghost files = { λ source. IsWhole IsFileOf (table_in source.source) };

    ghost strings = { λ source. IsWhole IsStringOf (table_in source.source) };

    ghost trees = { λ source to_2099. IsTreeOf (release_in source.source) (table_in source.source) to_2099 };

    ghost forms = { form_of };

    fn open(alloc: Global, text: &[u8]) -> Result<AnySource, Refusal> {
        look_at(alloc, text)?;
        open_any(alloc, text)
    }

    fn zone(&self, alloc: Global, name: &str) -> Result<OpenZone, Refusal> {
        zone_of(alloc, &self.source, name)
    }

    fn entries(&self, alloc: Global) -> Result<Vec<NameEntry<'_>>, AllocError> {
        entries_of(alloc, &self.source)
    }

    fn file(&self, alloc: Global, name: &str) -> Result<Vec<u8>, Refusal> {
        let zone = zone_of(alloc, &self.source, name)?;
        file_in(alloc, &zone)
    }

    fn string(&self, alloc: Global, name: &str) -> Result<Vec<u8>, Refusal> {
        let zone = zone_of(alloc, &self.source, name)?;
        string_in(alloc, &zone)
    }

    fn tree(&self, alloc: Global, to_2099: bool) -> Result<Vec<u8>, Refusal> {
        if to_2099 {
            tree_to_2099(alloc, &self.source)
        } else {
            tree_for_ever(alloc, &self.source)
        }
    }

    fn plain_form(alloc: Global, text: &[u8]) -> Result<Vec<u8>, Refusal> {
        form_of(alloc, text)
    }
}

impl PlainSource for AnySource {
    ghost use Rattle.sefunjaro.specs.Sources.{table_in};
    ghost use Rattle.zone_command.specs.{Plain.{plain_replies}, Sources.{IsReadPlainly, IsUnreadPlainly}};

    ghost plainly = { λ text source. IsReadPlainly text source.source };

    ghost unplainly = { IsUnreadPlainly };

    ghost plain = { λ source. plain_replies (table_in source.source) };

    fn open_plainly(alloc: Global, text: &[u8]) -> Result<AnySource, Refusal> {
        look_at(alloc, text)?;
        match OpenSource::open_plain(alloc, text) {
            Ok(source) => Ok(AnySource { source }),
            Err(OpenFault::Source(_)) => open_any(alloc, text),
            Err(OpenFault::TooLong) => unreachable!(),
            Err(OpenFault::NoMemory) => Err(Refusal::NoMemory),
        }
    }

    fn serve_plain<X: Exchange>(&self, alloc: Global, exchange: &mut X) -> StreamEnd {
        run_stream(alloc, PlainStream::new(alloc, &self.source), exchange)
    }
}

/// Reads a source that isn't refused at first sight.
fn open_any(alloc: Global, text: &[u8]) -> Result<AnySource, Refusal>
    ensures ok { IfOk result (λ source. IsAnySource text.now source.source) }
    ensures err { IfErr result (IsTold (HasFault text.now)) }
{
    match OpenSource::open(alloc, text) {
        Ok(source) => Ok(AnySource { source }),
        Err(AnySourceFault::NoMemory) => Err(Refusal::NoMemory),
        Err(fault) => Err(Refusal::Why(fault_words(alloc, &fault)?)),
    }
}

/// What is told of a zone that doesn't go on.
const ENDING: &[u8] =
    b"the rules of this zone end, or aren't found to come again, so it isn't told for ever";

/// A name, and the name that it leads to where it is a link's.
fn entry_of<'s>(table: &'s Table, name: &'s str) -> NameEntry<'s>
    ensures { name_seen result ≡ entry_of table.now name.now }
{
    let zone = if table.zonesets.contains_key(name) {
        None
    } else {
        match table.links.get(name) {
            Some(zone) => Some(zone.as_str()),
            None => None,
        }
    };
    NameEntry { name, zone }
}

/// The names that find a zone, in byte order.
fn entries_of<'s>(alloc: Global, source: &'s OpenSource) -> Result<Vec<NameEntry<'s>>, AllocError>
    ensures { IfOk result (λ entries. map name_seen entries.items ≡ entries_of (table_in source.now)) }
{
    let mut entries = Vec::new(alloc);
    for name in source.names().as_slice() {
        entries.push(entry_of(source.table(), name.as_str()))?;
    }
    Ok(entries)
}

/// What is told of a name that finds no zone.
#[tactic(auto, unfolding(crate::specs::Views::unknown_words))]
pub(crate) fn unknown_words(
    alloc: Global,
    source: &OpenSource,
    name: &str,
) -> Result<Vec<u8>, AllocError>
    ensures { IfOk result (λ words. words.items ≡ unknown_words (table_in source.now) name.now) }
{
    let entries = entries_of(alloc, source)?;
    let near = near_names(alloc, &entries, name)?;
    let mut words = Vec::new(alloc);
    add_unknown(&mut words, alloc, &near)?;
    Ok(words)
}

/// What goes on for ever has offsets of less than 26 hours.
fn accepted_for_ever(zone: &OpenZone)
    ensures { IfSome (ever_in zone.now) (λ ever. IsAccepted (schedule_of (zone_set_of ever))) }
{
    match zone.for_ever() {
        Some(ever) => {
            let _set = ever.compact();
        }
        None => {}
    }
}

/// The zone of a name, or the fault that keeps it from being asked.
fn opened(alloc: Global, source: &OpenSource, name: &str) -> Result<OpenZone, ZoneFault>
    ensures ok { IfOk result (λ zone. found_in (table_in source.now) name.now ≡ Ok (reply_view (origin_in zone) (recurrence_in zone) (all_in zone))) }
    ensures ever { IfOk result (λ zone. ever_found (table_in source.now) name.now ≡ option_map zone_set_of (ever_in zone)) }
    ensures err { IfErr result (IsToldAs (table_in source.now) name.now) }
{
    match source.zone(alloc, name) {
        Ok(zone) => {
            accepted_for_ever(&zone);
            Ok(zone)
        }
        Err(fault) => Err(fault),
    }
}

/// The zone of a name.
fn zone_of(alloc: Global, source: &OpenSource, name: &str) -> Result<OpenZone, Refusal>
    ensures ok { IfOk result (λ zone. found_in (table_in source.now) name.now ≡ Ok (reply_view (origin_in zone) (recurrence_in zone) (all_in zone))) }
    ensures ever { IfOk result (λ zone. ever_found (table_in source.now) name.now ≡ option_map zone_set_of (ever_in zone)) }
    ensures err { IfErr result (IsTold (λ why. found_in (table_in source.now) name.now ≡ Err why)) }
{
    match opened(alloc, source, name) {
        Ok(zone) => Ok(zone),
        Err(ZoneFault::UnknownZone) => Err(Refusal::Why(unknown_words(alloc, source, name)?)),
        Err(ZoneFault::Schedule(fault)) => {
            Err(Refusal::Why(schedule_words(fault).to_vec(alloc)?))
        }
        Err(ZoneFault::OffsetRange) => Err(Refusal::Why(
            b"this zone has an offset of 26 hours or more".to_vec(alloc)?,
        )),
        Err(ZoneFault::NoMemory) => Err(Refusal::NoMemory),
    }
}

/// The file of a zone, if it goes on.
fn file_in(alloc: Global, zone: &OpenZone) -> Result<Vec<u8>, Refusal>
    ensures { (table : Table) (name : List ℕ) → found_in table name ≡ Ok (reply_view (origin_in zone.now) (recurrence_in zone.now) (all_in zone.now))
        → ever_found table name ≡ option_map zone_set_of (ever_in zone.now) → IsGiven (IsWhole IsFileOf table name) result }
{
    match zone.for_ever() {
        Some(ever) => file_of(alloc, ever),
        None => Err(Refusal::Why(ENDING.to_vec(alloc)?)),
    }
}

/// The file of a zone that goes on.
fn file_of(alloc: Global, ever: &ZoneSet) -> Result<Vec<u8>, Refusal>
    ensures { IsGiven (IsFileOf (zone_set_of ever.now)) result }
{
    match tzif_for_ever(alloc, ever) {
        Ok(file) => Ok(file),
        Err(EverFileFault::Footer(EverTailFault::NoMemory)) => Err(Refusal::NoMemory),
        Err(EverFileFault::File(FileFault::NoMemory)) => Err(Refusal::NoMemory),
        Err(fault) => Err(Refusal::Why(file_words(fault).to_vec(alloc)?)),
    }
}

/// The line of the string of a zone, if it goes on.
fn string_in(alloc: Global, zone: &OpenZone) -> Result<Vec<u8>, Refusal>
    ensures { (table : Table) (name : List ℕ) → found_in table name ≡ Ok (reply_view (origin_in zone.now) (recurrence_in zone.now) (all_in zone.now))
        → ever_found table name ≡ option_map zone_set_of (ever_in zone.now) → IsGiven (IsWhole IsStringOf table name) result }
{
    match zone.for_ever() {
        Some(ever) => string_of(alloc, ever),
        None => Err(Refusal::Why(ENDING.to_vec(alloc)?)),
    }
}

/// The line of the string that carries a zone on.
fn string_of(alloc: Global, ever: &ZoneSet) -> Result<Vec<u8>, Refusal>
    ensures { IsGiven (IsStringOf (zone_set_of ever.now)) result }
{
    match tail_for_ever(alloc, ever) {
        Ok(tail) => {
            let mut line = tail.text.as_bytes().to_vec(alloc)?;
            line.extend_from_slice(b"\n")?;
            Ok(line)
        }
        Err(EverTailFault::NoMemory) => Err(Refusal::NoMemory),
        Err(fault) => Err(Refusal::Why(tail_words(fault).to_vec(alloc)?)),
    }
}

/// The archive of all files, of zones to the end of 2099.
fn tree_to_2099(alloc: Global, source: &OpenSource) -> Result<Vec<u8>, Refusal>
    ensures { IsGiven (IsTreeBy (OfTreeTo2099 (release_in source.now) (table_in source.now))) result }
{
    match tree_of_table(alloc, source.release(), source.table()) {
        Ok(bytes) => Ok(bytes),
        Err(TreeFault::Refused(name, why)) => {
            Err(Refusal::Why(name_words(alloc, name.as_str(), why_words(why))?))
        }
        Err(TreeFault::Source(_)) => Err(Refusal::NoMemory),
        Err(TreeFault::NoMemory) => Err(Refusal::NoMemory),
    }
}

/// The same of zones that go on for ever.
fn tree_for_ever(alloc: Global, source: &OpenSource) -> Result<Vec<u8>, Refusal>
    ensures { IsGiven (IsTreeBy (OfTree (release_in source.now) (table_in source.now))) result }
{
    match tree_of_table_for_ever(alloc, source.release(), source.table()) {
        Ok(bytes) => Ok(bytes),
        Err(TreeFault::Refused(name, why)) => {
            Err(Refusal::Why(name_words(alloc, name.as_str(), why_words(why))?))
        }
        Err(TreeFault::Source(_)) => Err(Refusal::NoMemory),
        Err(TreeFault::NoMemory) => Err(Refusal::NoMemory),
    }
}
