//! What a handle holds.

use sefunjaro::{OpenSource, OpenZone};
use std::alloc::{AllocError, Global};
use std::sync::Arc;

/// What was opened: a source, or a zone that handles share.
#[derive(Drop)]
pub enum Opened {
    /// The zones of a source.
    Source(OpenSource),
    /// A zone.
    Zone(Arc<OpenZone>),
}

impl Opened {
    ghost use Rattle.std.specs.{Prelude.{◌≡◌, IfOk}, Arc.{arc_value}};
    ghost use Rattle.sefunjaro_c.specs.Held.{IsSource, IsZone};

    /// A source, on the heap.
    ///
    /// # Errors
    ///
    /// Want of memory alone.
    pub fn source(alloc: Global, source: OpenSource) -> Result<Box<Opened>, AllocError>
        ensures { IfOk result (λ opened. IsSource (λ held. held ≡ source) opened.value) }
    {
        Opened::boxed(alloc, Opened::Source(source))
    }

    /// A zone, on the heap.
    ///
    /// # Errors
    ///
    /// Want of memory alone.
    pub fn zone(alloc: Global, zone: OpenZone) -> Result<Box<Opened>, AllocError>
        ensures { IfOk result (λ opened. IsZone (λ held. held ≡ zone) opened.value) }
    {
        match Arc::new(alloc, zone) {
            Ok(shared) => Opened::boxed(alloc, Opened::Zone(shared)),
            Err(_) => Err(AllocError),
        }
    }

    /// The same zone, for one owner more.
    ///
    /// # Errors
    ///
    /// Want of memory alone.
    pub fn shared(alloc: Global, zone: &Arc<OpenZone>) -> Result<Box<Opened>, AllocError>
        ensures { IfOk result (λ opened. IsZone (λ held. held ≡ arc_value zone.now) opened.value) }
    {
        let other = Arc::try_clone(zone)?;
        Opened::boxed(alloc, Opened::Zone(other))
    }

    fn boxed(alloc: Global, opened: Opened) -> Result<Box<Opened>, AllocError>
        ensures { IfOk result (λ boxed. boxed.value ≡ opened) }
    {
        match Box::new(alloc, opened) {
            Ok(boxed) => Ok(boxed),
            Err(_) => Err(AllocError),
        }
    }
}
