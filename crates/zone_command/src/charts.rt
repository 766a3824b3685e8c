//! Pictures of zones.
ghost use Rattle.std.specs.Prelude.{◌≡◌, ◌∷◌, ℕ, List, map, IfErr, IfOk, OnOk, Ok, Err};
ghost use Rattle.zone_command.specs.{Answers.{IsGiven}, Named.{named_view}, Refusals.{IsTold}, Replies.{behind_found, named_zones, IsCharted, IsStep}};
ghost use Rattle.zone_texts.specs.{SeenZones.{Named, named}};
ghost use Rattle.zone_words.specs.Shown.{word_shown};

use crate::answers::told;
use crate::named::{NamedZone, find_named};
use crate::source::{Refusal, ZoneSource};
use itoa::Buffer;
use std::alloc::Global;
use zone_texts::{ChartZone, chart_of};

/// Adds the zone that a name finds.
fn add_charted<'n, S: ZoneSource>(
    zones: &mut Vec<ChartZone<'n, NamedZone<'n, S::Zone>>>,
    alloc: Global,
    source: &S,
    name: &'n str,
) -> Result<(), Refusal>
    ensures ok { OnOk result ((others : List (List ℕ)) → IsStep (S.found source.now) name.now others
        (map (named (named_view S.Zone.view)) zones.old.items) (map (named (named_view S.Zone.view)) zones.new.items)) }
    ensures err { IfErr result (IsTold (λ words. (before : List Named) (others : List (List ℕ)) →
        behind_found before (named_zones (S.found source.now) (name.now ∷ others)) ≡ Err words)) }
{
    let zone = match find_named(alloc, source, name) {
        Ok(zone) => zone,
        Err(Refusal::Why(words)) => return Err(Refusal::Why(words)),
        Err(Refusal::NoMemory) => return Err(Refusal::NoMemory),
    };
    match zones.push(ChartZone { name, zone }) {
        Ok(()) => Ok(()),
        Err(_) => Err(Refusal::NoMemory),
    }
}

/// The zones that names find, each under its name.
fn charted<'n, S: ZoneSource>(
    alloc: Global,
    source: &S,
    names: &[&'n str],
) -> Result<Vec<ChartZone<'n, NamedZone<'n, S::Zone>>>, Refusal>
    ensures ok { IfOk result (λ zones. named_zones (S.found source.now) (map word_shown names.now) ≡ Ok (map (named (named_view S.Zone.view)) zones.items)) }
    ensures err { IfErr result (IsTold (λ words. named_zones (S.found source.now) (map word_shown names.now) ≡ Err words)) }
{
    let mut zones = Vec::new(alloc);
    for name in names {
        match add_charted(&mut zones, alloc, source, *name) {
            Ok(()) => {}
            Err(Refusal::Why(words)) => return Err(Refusal::Why(words)),
            Err(Refusal::NoMemory) => return Err(Refusal::NoMemory),
        }
    }
    Ok(zones)
}

/// The answer to `chart`.
pub(crate) fn chart_reply<S: ZoneSource>(
    alloc: Global,
    source: &S,
    names: &[&str],
    year: u16,
) -> Result<Vec<u8>, Refusal>
    ensures { IsGiven (IsCharted (S.found source.now) (map word_shown names.now) year) result }
{
    let zones = charted(alloc, source, names)?;
    let text = chart_of(alloc, &zones, year);
    told(alloc, Buffer::new().format(year), text)
}
