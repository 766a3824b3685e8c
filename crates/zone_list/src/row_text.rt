//! The text of a row, written into room that was reserved before.
ghost use Rattle.std.specs.Prelude.{◌≡◌, [], ◌++◌, OnOk};

use pad_fmt::{Full, TextSink};
use std::alloc::{AllocError, Global};
use std::marker::Model;

/// The text of a row so far, and how many more bytes it may take. Its memory serves one row after another.
#[derive(Drop)]
pub(crate) struct RowText {
    bytes: Vec<u8>,
    room: usize,
}

impl Model for RowText {
    ghost use Rattle.std.specs.Prelude.{◌+◌, ◌≤◌, vec_len, vec_capacity};
    ghost use Rattle.zone_list.specs.RowTexts.{RowSoFar};

    ghost Value = { RowSoFar };

    ghost view = { λ row. record { text = row.bytes.items; room = row.room } };

    ghost invariant = { λ row. vec_len row.bytes + row.room ≤ vec_capacity row.bytes };
}

impl RowText {
    /// No text, and room for none.
    pub(crate) fn new(alloc: Global) -> RowText
        ensures { result ≡ record { text = []; room = 0 } }
    {
        RowText {
            bytes: Vec::new(alloc),
            room: 0,
        }
    }

    /// Begins again with no text and no room.
    pub(crate) fn clear(&mut self)
        ensures { self.new ≡ record { text = []; room = 0 } }
    {
        self.room = 0;
        self.bytes.clear();
    }

    /// Reserves room for that many more bytes.
    pub(crate) fn make_room(&mut self, room: usize) -> Result<(), AllocError>
        ensures { OnOk result (self.new ≡ record self.old { room = room }) }
    {
        self.room = 0;
        self.bytes.reserve(room)?;
        self.room = room;
        Ok(())
    }

    /// Adds these bytes, for which room is reserved here.
    pub(crate) fn add(&mut self, bytes: &[u8]) -> Result<(), AllocError>
        ensures { OnOk result (self.new ≡ record { text = self.old.text ++ bytes.now; room = 0 }) }
    {
        self.room = 0;
        self.bytes.extend_from_slice(bytes)?;
        Ok(())
    }

    /// The text.
    pub(crate) fn as_bytes(&self) -> &[u8]
        ensures { result.now ≡ self.now.text }
    {
        &self.bytes
    }
}

impl TextSink for RowText {
    ghost text = { λ row. row.text };

    ghost room = { λ row. row.room };

    fn write_str(&mut self, string: &str) -> Result<(), Full> {
        if string.len() > self.room {
            return Err(Full);
        }
        self.bytes.extend_from_slice(string.as_bytes()).unwrap();
        self.room -= string.len();
        Ok(())
    }

    fn write_char(&mut self, c: char) -> Result<(), Full> {
        let mut utf8 = [0; 4];
        self.write_str(c.encode_utf8(&mut utf8))
    }
}
