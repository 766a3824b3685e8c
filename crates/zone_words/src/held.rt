//! The front of a line that isn't whole yet, in bounded memory.
ghost use Rattle.std.specs.Prelude.{◌≡◌, ◌≤◌, [], ◌++◌, take, length, IfOk};

use std::alloc::{AllocError, Global};
use std::marker::Model;

/// How many bytes are held of an open line: one that has as many holds a request that is too long, whatever follows.
pub(crate) const ROOM: usize = 4098;

/// The front of an open line, up to its room.
#[derive(Drop)]
pub(crate) struct Held {
    bytes: Vec<u8>,
}

impl Model for Held {
    ghost use Rattle.std.specs.Prelude.{ℕ, List, vec_len, vec_capacity};
    ghost use Rattle.zone_words.specs.Room.{HasRoom};

    ghost Value = { List ℕ };

    ghost view = { λ held. held.bytes.items };

    ghost invariant = { λ held. HasRoom (vec_len held.bytes) (vec_capacity held.bytes) };
}

impl Held {
    /// Nothing is held.
    ///
    /// # Errors
    ///
    /// Want of memory for the room alone.
    pub(crate) fn new(alloc: Global) -> Result<Held, AllocError>
        ensures { IfOk result (λ held. held ≡ []) }
    {
        Ok(Held {
            bytes: Vec::with_capacity(alloc, ROOM)?,
        })
    }

    /// Adds more of the line, as far as there is room.
    pub(crate) fn add(&mut self, more: &[u8])
        ensures { self.new ≡ take ROOM (self.old ++ more.now) }
    {
        let count = more.len().min(ROOM - self.bytes.len());
        self.bytes.extend_from_slice(&more[..count]).unwrap();
    }

    /// Lets go of all.
    pub(crate) fn clear(&mut self)
        ensures { self.new ≡ [] }
    {
        self.bytes.clear();
    }

    pub(crate) fn as_bytes(&self) -> &[u8]
        ensures bytes { result.now ≡ self.now }
        ensures within { length result.now ≤ 4098 }
    {
        &self.bytes
    }
}
