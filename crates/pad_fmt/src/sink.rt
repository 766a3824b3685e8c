//! Where text goes: sinks with limited room.
ghost use Rattle.std.specs.Prelude.{◌≡◌, ℕ, ◌+◌, ◌<◌, List, ◌++◌, length, encode_utf8};
ghost use Rattle.pad_fmt.specs.Sink.{Wrote};

/// The text does not fit into the room that is left.
#[derive(Clone, Copy, PartialEq, Eq, Debug)]
pub struct Full;

/// Takes text, as long as there is room for it.
pub trait TextSink {
    // The bytes taken so far.
    ghost text: { Self → List ℕ };

    // How many bytes still fit.
    ghost room: { Self → ℕ };

    /// Appends the whole text.
    ///
    /// # Errors
    ///
    /// `Full`, with no change, exactly where its bytes do not fit.
    fn write_str(&mut self, string: &str) -> Result<(), Full>
        ensures wrote { Wrote Self.text room self.old self.new string.now result };

    /// Appends the character in UTF-8.
    ///
    /// # Errors
    ///
    /// `Full`, with no change, exactly where its bytes do not fit.
    fn write_char(&mut self, c: char) -> Result<(), Full>
        ensures wrote { Wrote Self.text room self.old self.new (encode_utf8 c) result };
}
