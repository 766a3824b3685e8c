//! Laws of edits.
ghost use Rattle.std.specs.Prelude.{◌≡◌, List, ℕ, false};
ghost use Rattle.zone_texts.specs.Edits.{is_one_edit};

/// If one text is one edit apart from another, so is the other from it; and none is one edit apart from itself.
pub fn apart_both_ways()
    ensures both { (a b : List ℕ) → is_one_edit a b ≡ is_one_edit b a }
    ensures itself { (a : List ℕ) → is_one_edit a a ≡ false }
{}
