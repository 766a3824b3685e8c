//! Quotes, comments and white space in a line.
ghost use Rattle.std.specs.Prelude.{◌≡◌};
ghost use Rattle.zone_plain_lines.specs.Quotes.{is_white, after, begins_comment, closes_nothing, is_gap, is_outside};

/// Where a byte of a line stands.
#[derive(Clone, Copy, Debug, PartialEq, Eq)]
pub enum Place {
    /// Outside quotes.
    Outside,
    /// Right after the quote that opens.
    Opened,
    /// Further on within quotes.
    Within,
}

impl Place {
    /// Where the byte after this one stands.
    pub(crate) fn after(self, byte: u8) -> Place
        ensures { result ≡ after self byte }
    {
        match self {
            Place::Outside if byte == b'"' => Place::Opened,
            Place::Outside => Place::Outside,
            Place::Opened | Place::Within if byte == b'"' => Place::Outside,
            Place::Opened | Place::Within => Place::Within,
        }
    }

    /// Whether a comment begins with the byte.
    pub(crate) fn begins_comment(self, byte: u8) -> bool
        ensures { result ≡ begins_comment self byte }
    {
        self.is_outside() && byte == b'#'
    }

    /// Whether the byte closes quotes between which nothing stands.
    pub(crate) fn closes_nothing(self, byte: u8) -> bool
        ensures { result ≡ closes_nothing self byte }
    {
        match self {
            Place::Opened => byte == b'"',
            Place::Outside | Place::Within => false,
        }
    }

    /// Whether the byte parts fields.
    pub(crate) fn is_gap(self, byte: u8) -> bool
        ensures { result ≡ is_gap self byte }
    {
        self.is_outside() && is_white(byte)
    }

    /// Whether the place is outside quotes.
    pub(crate) fn is_outside(self) -> bool
        ensures { result ≡ is_outside self }
    {
        match self {
            Place::Outside => true,
            Place::Opened | Place::Within => false,
        }
    }
}

/// Whether the byte is a space, a tab, a form feed, a carriage return or a vertical tab.
pub(crate) fn is_white(byte: u8) -> bool
    ensures { result ≡ is_white byte }
{
    byte == b' ' || byte == b'\t' || byte == 12 || byte == b'\r' || byte == 11
}
