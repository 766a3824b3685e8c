//! How many instants a local time has, in a word.
ghost use Rattle.std.specs.Prelude.{◌≡◌};
ghost use Rattle.zone_texts.specs.Kinds.{kind_of, kind_text};

/// How many instants a local time has.
#[derive(Clone, Copy, Debug, PartialEq, Eq)]
pub enum Kind {
    /// One.
    One,
    /// None: clocks are set ahead over it.
    Gap,
    /// Two: clocks are set back over it.
    Fold,
    /// More than two.
    More,
}

impl Kind {
    /// The kind of a local time with so many instants.
    pub fn of_count(count: usize) -> Kind
        ensures { result ≡ kind_of count }
    {
        if count == 0 {
            return Kind::Gap;
        }
        if count == 1 {
            return Kind::One;
        }
        if count == 2 {
            return Kind::Fold;
        }
        Kind::More
    }

    /// The kind's word: `one`, `gap`, `fold` or `more`.
    pub fn text(self) -> &'static [u8]
        ensures { result.now ≡ kind_text self }
    {
        match self {
            Kind::One => b"one",
            Kind::Gap => b"gap",
            Kind::Fold => b"fold",
            Kind::More => b"more",
        }
    }
}
