//! Laws of the files.
ghost use Rattle.std.specs.{Prelude.{◌≡◌, ◌&&◌, ℕ, List, true}, List.{list_all}};
ghost use Rattle.zone_tzif_core.specs.{Denotes.{Denotes, Says}, Tzif.{IsTzif, IsTzifBy}, Zones.{ZoneValue, is_small, rises}, declared.values.Version.{Version}};

/// A file denotes one value at most.
pub fn one_reading()
    ensures { (bytes : List ℕ) (x y : ZoneValue) → Denotes bytes x → Denotes bytes y → x ≡ y }
{}

/// What is written for a value denotes it.
pub fn written_denotes()
    ensures { (bytes : List ℕ) (zone : ZoneValue) → IsTzif bytes zone → Denotes bytes zone }
{}

/// So does what is written for it in either version.
pub fn each_denotes()
    ensures { (version : Version) (bytes : List ℕ) (zone : ZoneValue) → IsTzifBy version bytes zone → Denotes bytes zone }
{}

/// One file is written for one value at most.
pub fn one_value()
    ensures { (bytes : List ℕ) (x y : ZoneValue) → IsTzif bytes x → IsTzif bytes y → x ≡ y }
{}

/// A file of which `read_any` reads a zone says the same to `read_file`: the same changes with the same kinds, and the same footer.
pub fn denoted_is_said()
    ensures said { (bytes : List ℕ) (zone : ZoneValue) → Denotes bytes zone → Says bytes zone }
    ensures same { (bytes : List ℕ) (x y : ZoneValue) → Denotes bytes x → Says bytes y → x ≡ y }
{}

/// A file says one value at most.
pub fn one_saying()
    ensures { (bytes : List ℕ) (x y : ZoneValue) → Says bytes x → Says bytes y → x ≡ y }
{}

/// The times of what a file says strictly rise, and each of its offsets is 93,599 seconds at most to either side.
pub fn said_bounds()
    ensures rising { (bytes : List ℕ) (zone : ZoneValue) → Says bytes zone → rises zone.rest ≡ true }
    ensures small { (bytes : List ℕ) (zone : ZoneValue) → Says bytes zone
        → (is_small zone.first.utoff && list_all (λ change. is_small change.1.utoff) zone.rest) ≡ true }
{}
