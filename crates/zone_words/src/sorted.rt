//! The words sorted: options with the words behind them, and the others.
ghost use Rattle.std.specs.Prelude.{◌≡◌, ◌++◌, ◌∷◌, [], false, map, string_bytes, OnOk};
ghost use Rattle.zone_words.specs.{Shown.{given_shown, sorted_shown, stepped, word_shown}, Sorted.{none_sorted, put_any, put_option, put_word, sorted, step}, Told.{is_short, Reads}};

use crate::given::{Given, is_among, is_flag, is_option, is_valued};
use crate::{WordCause, WordFault};
use std::alloc::{AllocError, Global};

/// What the next word may be.
#[derive(Clone, Copy)]
pub(crate) enum Expected<'w> {
    /// Anything.
    Any,
    /// The word behind this option.
    Behind(&'w str),
    /// A word that is no option, since `--` stands before it.
    Plain,
}

/// Options and the other words, each in their order.
#[derive(Drop)]
pub(crate) struct Sorted<'w> {
    pub(crate) words: Vec<&'w str>,
    pub(crate) given: Vec<Given<'w>>,
    next: Expected<'w>,
}

fn add_word<'w>(words: &mut Vec<&'w str>, word: &'w str) -> Result<(), AllocError>
    ensures { OnOk result (map word_shown words.new.items ≡ map word_shown words.old.items ++ word.now ∷ []) }
{
    words.push(word)?;
    Ok(())
}

fn add_option<'w>(given: &mut Vec<Given<'w>>, option: Given<'w>) -> Result<(), AllocError>
    ensures { OnOk result (map given_shown given.new.items ≡ map given_shown given.old.items ++ given_shown option.entry ∷ []) }
{
    given.extend_from_slice(&[option])
}

impl<'w> Sorted<'w> {
    fn new(alloc: Global) -> Sorted<'w>
        ensures { sorted_shown result ≡ none_sorted }
    {
        Sorted {
            words: Vec::new(alloc),
            given: Vec::new(alloc),
            next: Expected::Any,
        }
    }

    /// One word that is no option more.
    #[tactic(auto, unfolding(crate::specs::Sorted::put_word))]
    fn put_word(&mut self, word: &'w str) -> Result<(), WordFault<'w>>
        ensures { is_short (stepped result self.new) ≡ false → stepped result self.new ≡ put_word (sorted_shown self.old) word.now }
    {
        add_word(&mut self.words, word)?;
        Ok(())
    }

    /// One option more, with the word behind it.
    #[tactic(auto, unfolding(crate::specs::Sorted::put_option))]
    fn put_option(&mut self, name: &'w str, value: &'w str) -> Result<(), WordFault<'w>>
        ensures { is_short (stepped result self.new) ≡ false → stepped result self.new ≡ put_option (sorted_shown self.old) name.now value.now }
    {
        if is_among(self.given.as_slice(), name) {
            return Err(WordFault::of(name, WordCause::Twice));
        }
        add_option(&mut self.given, Given { name, value })?;
        self.next = Expected::Any;
        Ok(())
    }

    /// One word more, which may be anything.
    #[tactic(auto, unfolding(crate::specs::Sorted::put_any))]
    fn put_any(&mut self, word: &'w str) -> Result<(), WordFault<'w>>
        ensures { is_short (stepped result self.new) ≡ false → stepped result self.new ≡ put_any (sorted_shown self.old) word.now }
    {
        if word == "--" {
            self.next = Expected::Plain;
            return Ok(());
        }
        if is_valued(word) {
            self.next = Expected::Behind(word);
            return Ok(());
        }
        if is_flag(word) {
            return self.put_option(word, "");
        }
        if is_option(word) {
            return Err(WordFault::of(word, WordCause::UnknownOption));
        }
        self.put_word(word)
    }

    /// One word more.
    fn put(&mut self, word: &'w str) -> Result<(), WordFault<'w>>
        ensures { is_short (stepped result self.new) ≡ false → stepped result self.new ≡ step (sorted_shown self.old) word.now }
    {
        match self.next {
            Expected::Any => self.put_any(word),
            Expected::Behind(name) => self.put_option(name, word),
            Expected::Plain => self.put_word(word),
        }
    }
}

/// The words sorted, from the left to the right.
pub(crate) fn sort_words<'w>(
    alloc: Global,
    words: &'w [String],
) -> Result<Sorted<'w>, WordFault<'w>>
    ensures { Reads sorted_shown result (sorted (map string_bytes words.now)) }
{
    let mut sorted = Sorted::new(alloc);
    for word in words {
        sorted.put(word.as_str())?;
    }
    match sorted.next {
        Expected::Behind(name) => Err(WordFault::of(name, WordCause::ValueMissing)),
        Expected::Any => Ok(sorted),
        Expected::Plain => Ok(sorted),
    }
}
