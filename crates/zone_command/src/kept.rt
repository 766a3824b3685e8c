//! Zones that are opened once.
ghost use Rattle.std.{specs.Prelude.{◌≡◌, ℕ, List, true, Ok, Err, IfErr, IfSome, OnOk}, specs.FinMap.{get, contains_key}, proofs.Props.{props}};
ghost use Rattle.zone_command.specs.{Named.{named_in}, Refusals.{IsTold}, Kept.{is_kept}};

use crate::answers::refusal_of;
use crate::offset::offset_in;
use crate::source::{Refusal, ZoneSource};
use basics::TextMap;
use std::alloc::Global;

/// The zones of a source that were asked for, by their names. Names that are offsets or find no zone aren't kept, so there are at most as
/// many as the source has names.
#[derive(Drop)]
pub(crate) struct KeptZones<'s, S: ZoneSource> {
    source: &'s S,
    zones: TextMap<S::Zone>,
    ghost known: { (name : List ℕ) → IfSome (get zones name) (λ zone. S.found source.now name ≡ Ok (S.Zone.view zone)) } by { Prim.hlevel props },
}

impl<'s, S: ZoneSource> KeptZones<'s, S> {
    /// None yet, of a source. It takes no memory.
    pub(crate) fn new(alloc: Global, source: &'s S) -> KeptZones<'s, S>
        ensures { result.source.now ≡ source.now }
    {
        KeptZones {
            source,
            zones: TextMap::new(alloc),
        }
    }

    /// Keeps the zone of a name that is no offset.
    ///
    /// # Errors
    ///
    /// Why the name finds none, or want of memory. Nothing is kept then.
    pub(crate) fn keep(&mut self, alloc: Global, name: &str) -> Result<(), Refusal>
        ensures same { self.new.source.now ≡ self.old.source.now }
        ensures kept { OnOk result (is_kept self.new.zones name.now ≡ true) }
        ensures others { (other : List ℕ) → is_kept self.old.zones other ≡ true → is_kept self.new.zones other ≡ true }
        ensures err { IfErr result (IsTold (λ words. named_in (S.found self.old.source.now) name.now ≡ Err words)) }
    {
        if offset_in(name).is_some() || self.zones.contains_key(name) {
            return Ok(());
        }
        match self.source.zone(alloc, name) {
            Ok(zone) => {
                self.zones.insert(alloc, name, zone)?;
                Ok(())
            }
            Err(Refusal::Why(why)) => Err(refusal_of(alloc, name, &why)),
            Err(Refusal::NoMemory) => Err(Refusal::NoMemory),
        }
    }

    /// The zone of a name that is kept.
    pub(crate) fn zone(&self, name: &str) -> &S::Zone
        requires { contains_key self.now.zones name.now ≡ true }
        ensures { S.found self.now.source.now name.now ≡ Ok (S.Zone.view result.now) }
    {
        self.zones.get(name).unwrap()
    }
}
