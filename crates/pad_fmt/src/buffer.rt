//! Text of limited size, without memory of its own.
ghost use Rattle.std.specs.{Prelude.{◌↔◌, ◌≤◌, ◌+◌, IsOk, OnOk, OnErr, ◌≡◌, ℕ, ◌-◌, IsTrue, List, [], ◌++◌, length, refl, Some}, Cmp.Lexicographic.{texts_po, texts_ties}, Fmt.{padded}};
ghost use Rattle.std.specs.Hash as fed;
ghost use Rattle.pad_fmt.specs.{Buffer.{are_same_bytes, cmp_by_bytes, partial_cmp_by_bytes}, BufferLaws.{same_bytes_equivalence, same_bytes_partial_equivalence, bytes_total_order, same_bytes_same_hash}};

use crate::sink::{Full, TextSink};
use arrayvec::{ArrayString, CapacityError};
use std::cmp::Ordering;
use std::fmt::{Display, Formatter, Result as Printed, Write};
use std::hash::{Hash, Hasher};
use std::marker::Model;

/// Text of at most `SIZE` bytes, which lie in the value itself.
///
/// Buffers of one size are equal, ordered and hashed as their texts are.
#[derive(Drop)]
pub struct WriteBuffer<const SIZE: usize> {
    written: ArrayString<SIZE>,
}

impl<const SIZE: usize> Model for WriteBuffer<SIZE> {
    ghost use Rattle.std.specs.Prelude.{ℕ, List, length, ◌≤◌};

    ghost Value = { List ℕ };

    ghost view = { λ buffer. buffer.written.bytes };

    ghost invariant = { λ buffer. length buffer.written.bytes ≤ SIZE };
}

impl<const SIZE: usize> WriteBuffer<SIZE> {
    /// A buffer with no text.
    pub fn new() -> Self
        ensures { result ≡ [] }
    {
        WriteBuffer {
            written: ArrayString::new(),
        }
    }

    /// The text so far.
    pub fn as_str(&self) -> &str
        ensures { result.now ≡ self.now }
    {
        self.written.as_str()
    }

    /// The bytes of the text so far.
    pub fn as_bytes(&self) -> &[u8]
        ensures { result.now ≡ self.now }
    {
        self.as_str().as_bytes()
    }

    /// How many more bytes fit: `SIZE` minus the length of the text in bytes.
    pub fn remaining_capacity(&self) -> usize
        ensures { result + length self.now ≡ SIZE }
    {
        self.written.remaining_capacity()
    }

    /// Appends the whole text.
    ///
    /// # Errors
    ///
    /// `Full`, with no change, exactly where the text has more bytes than `remaining_capacity` answers.
    pub fn write_str(&mut self, text: &str) -> Result<(), Full>
        ensures fits { IsOk result ↔ (length self.old + length text.now ≤ SIZE) }
        ensures ok { OnOk result (self.new ≡ self.old ++ text.now) }
        ensures full { OnErr result (self.new ≡ self.old) }
    {
        self.written.try_push_str(text).map_err(full)
    }

    /// Whether both texts have the same bytes, whatever the two sizes are.
    pub fn same_text<const R: usize>(&self, other: &WriteBuffer<R>) -> bool
        ensures { IsTrue result ↔ (self.now ≡ other.now) }
    {
        self.as_str() == other.as_str()
    }

    /// How the texts compare by their bytes, whatever the two sizes are.
    pub fn cmp_text<const R: usize>(&self, other: &WriteBuffer<R>) -> Ordering
        ensures { result ≡ cmp_by_bytes self.now other.now }
    {
        self.as_str().cmp(other.as_str())
    }
}

impl<const SIZE: usize> Default for WriteBuffer<SIZE> {
    ghost is_default = { λ buffer. buffer ≡ [] };

    fn default() -> Self {
        Self::new()
    }
}

impl<const SIZE: usize> TextSink for WriteBuffer<SIZE> {
    ghost text = { λ buffer. buffer };

    ghost room = { λ buffer. SIZE - length buffer };

    fn write_str(&mut self, string: &str) -> Result<(), Full> {
        self.written.try_push_str(string).map_err(full)
    }

    fn write_char(&mut self, c: char) -> Result<(), Full> {
        self.written.try_push(c).map_err(full)
    }
}

impl<const SIZE: usize> PartialEq for WriteBuffer<SIZE> {
    ghost eq = { are_same_bytes };

    ghost laws = { same_bytes_partial_equivalence };

    fn eq(&self, other: &Self) -> bool {
        self.written == other.written
    }
}

impl<const SIZE: usize> Eq for WriteBuffer<SIZE> {
    ghost laws = { same_bytes_equivalence };
}

impl<const SIZE: usize> PartialOrd for WriteBuffer<SIZE> {
    ghost partial_cmp = { partial_cmp_by_bytes };

    ghost laws = { texts_po };

    fn partial_cmp(&self, other: &Self) -> Option<Ordering> {
        self.written.partial_cmp(&other.written)
    }
}

impl<const SIZE: usize> Ord for WriteBuffer<SIZE> {
    ghost cmp = { cmp_by_bytes };

    ghost total = { bytes_total_order };

    ghost matches_partial_cmp = { λ _ _. refl };

    ghost matches_eq = { texts_ties };

    fn cmp(&self, other: &Self) -> Ordering {
        self.written.cmp(&other.written)
    }
}

impl<const SIZE: usize> Hash for WriteBuffer<SIZE> {
    ghost hash_input = { fed.str };

    ghost respects_eq = { same_bytes_same_hash };

    fn hash<H: Hasher>(&self, state: &mut H) {
        self.written.hash(state);
    }
}

impl<const SIZE: usize> Display for WriteBuffer<SIZE> {
    ghost output = { Some };

    ghost styled_output = { λ text spec. Some (padded spec text) };

    fn fmt<W: Write>(&self, f: &mut Formatter<W>) -> Printed {
        f.pad(self.as_str())
    }
}

// The refusal of what doesn't fit.
fn full<T: Copy>(_error: CapacityError<T>) -> Full {
    Full
}
