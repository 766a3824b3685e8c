//! Laws of releases.
ghost use Rattle.std.specs.Prelude.{◌≡◌, ℕ, List, Some};
ghost use Rattle.zone_source.specs.{Releases.{release_of}, ReleaseLines.{IsReleaseLine}};

/// A release that a source names stands on a line of its own that names it, as it stands, and is not empty.
pub fn names_itself()
    ensures { (source release : List ℕ) → release_of source ≡ Some release → IsReleaseLine release }
{}
