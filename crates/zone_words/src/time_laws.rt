//! Laws of the texts.
ghost use Rattle.std.specs.Prelude.{◌≡◌, ◌%◌, ◌<◌, ◌≤ℤ◌, List, ℕ, ℤ, pos, unsigned_abs, Option};
ghost use Rattle.basics.specs.Dates.{year_of};
ghost use Rattle.civil_base.specs.{Instants.{instant_at}, Layout.{day_part}, Ranges.{IsInYears}};
ghost use Rattle.zone_words.specs.{Spells.{SpellsAsked, SpellsInstant, SpellsLocal}, Stamps.{HasStamp}, Written.{moment_text, rfc3339_text, epoch_text}};

/// A text spells one local time at most, asks for one time at most, and has one time at its front at most.
pub fn one_reading()
    ensures local { (text : List ℕ) (x y : ℤ) → SpellsLocal text x → SpellsLocal text y → x ≡ y }
    ensures instant { (text : List ℕ) (x y : Option ℤ) → SpellsAsked text x → SpellsAsked text y → x ≡ y }
    ensures stamp { (text : List ℕ) (t u : ℤ) (size other : ℕ) → HasStamp text t size → HasStamp text u other → (t ≡ u) × (size ≡ other) }
{}

/// What is written is read again as the same: a local time of the years 0 to 9999, such a time at an offset of whole minutes and
/// less than 24 hours, and any instant.
pub fn written_again()
    ensures local { (x : ℤ) → IsInYears x → pos 0 ≤ℤ year_of (day_part x) → SpellsLocal (moment_text 32 x) x }
    ensures rfc3339 { (x o : ℤ) → IsInYears x → pos 0 ≤ℤ year_of (day_part x) → unsigned_abs o % 60 ≡ 0 → unsigned_abs o < 86400
        → IsInYears (instant_at x o) → SpellsInstant (rfc3339_text x o) (instant_at x o) }
    ensures epoch { (t : ℤ) → IsInYears t → SpellsInstant (epoch_text t) t }
{}
