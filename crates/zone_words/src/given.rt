//! The options among the words.
ghost use Rattle.std.specs.Prelude.{◌≡◌, map, option_map, is_some};
ghost use Rattle.zone_words.specs.{Options.{is_option, is_flag, is_valued, is_form, is_end, is_exclusive, is_among, value_of}, Shown.{given_shown}};

/// An option that was given, with its word, or with nothing where it wants none.
#[derive(Clone, Copy)]
pub(crate) struct Given<'w> {
    /// The option's own word.
    pub(crate) name: &'w str,
    /// The word behind it.
    pub(crate) value: &'w str,
}

/// Whether a word is to be an option: it begins with `-`, and what follows is no digit.
pub fn is_option(word: &str) -> bool
    ensures { result ≡ is_option word.now }
{
    match word.as_bytes() {
        [first, second, ..] => *first == b'-' && !second.is_ascii_digit(),
        _ => false,
    }
}

/// Whether it is an option without a word behind it.
pub(crate) fn is_flag(word: &str) -> bool
    ensures { result ≡ is_flag word.now }
{
    matches!(
        word,
        "--rfc3339" | "--epoch" | "--json" | "--help" | "--version" | "--plain" | "--to-2099"
    )
}

/// Whether it is an option with a word behind it.
pub(crate) fn is_valued(word: &str) -> bool
    ensures { result ≡ is_valued word.now }
{
    matches!(
        word,
        "--source"
            | "--from"
            | "--count"
            | "--until"
            | "--every"
            | "--on"
            | "--gap"
            | "--fold"
            | "--field"
    )
}

/// Whether it names a form of the answers; `--plain` is that of another program.
fn is_form(word: &str) -> bool
    ensures { result ≡ is_form word.now }
{
    matches!(word, "--rfc3339" | "--epoch" | "--json" | "--plain")
}

/// Whether it says when an alarm ends.
fn is_end(word: &str) -> bool
    ensures { result ≡ is_end word.now }
{
    matches!(word, "--count" | "--until")
}

/// Whether no two of these stand together.
fn is_exclusive(name: &str, other: &str) -> bool
    ensures { result ≡ is_exclusive name.now other.now }
{
    name == other || is_form(name) && is_form(other) || is_end(name) && is_end(other)
}

/// Whether one of the options excludes this one.
pub(crate) fn is_among(given: &[Given<'_>], name: &str) -> bool
    ensures { result ≡ is_among (map given_shown given.now) name.now }
{
    for other in given {
        if is_exclusive(name, other.name) {
            return true;
        }
    }
    false
}

/// The word behind an option, where it is given.
pub(crate) fn value_of<'w>(given: &[Given<'w>], name: &str) -> Option<&'w str>
    ensures { option_map (λ value. value.now) result ≡ value_of (map given_shown given.now) name.now }
{
    for option in given {
        if option.name == name {
            return Some(option.value);
        }
    }
    None
}

/// Whether an option is given.
pub(crate) fn has(given: &[Given<'_>], name: &str) -> bool
    ensures { result ≡ is_some (value_of (map given_shown given.now) name.now) }
{
    value_of(given, name).is_some()
}
