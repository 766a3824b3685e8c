//! Laws of the names of rulesets in the plain form.
ghost use Rattle.std.specs.Prelude.{◌≡◌, ◌<◌, ◌≤◌, ◌*◌, ◌^◌, ℕ, List, All, Ok, false, length, max, true};
ghost use Rattle.zone_line.specs.Fields.{is_ruleset_name};
ghost use Rattle.zone_plain_lines.specs.{Columns.{ruleset_name}, Names.{said_name}, Renamed.{has_name, mark_of}};
ghost use Rattle.zone_table.specs.Values.{LineValue};

/// A name that RULES can say stays as it is. In a source any other name becomes one that no line of it has, and no two names become
/// one. The name of any bytes can be said, and is read as a name again where it was read as one. A mark is short: it has at most two bytes
/// more than the binary logarithm of the number of lines.
pub fn said_names()
    ensures stays { (mark name : List ℕ) → is_ruleset_name name ≡ true → said_name mark name ≡ name }
    ensures new { (values : List LineValue) (name other : List ℕ) → is_ruleset_name name ≡ false → has_name values other ≡ true
        → said_name (mark_of values) name ≡ other → ⊥ }
    ensures one { (values : List LineValue) (a b : List ℕ) → has_name values a ≡ true → has_name values b ≡ true
        → said_name (mark_of values) a ≡ said_name (mark_of values) b → a ≡ b }
    ensures said { (values : List LineValue) (name : List ℕ) → All (λ byte. byte < 256) name → is_ruleset_name (said_name (mark_of values) name) ≡ true }
    ensures read { (values : List LineValue) (name : List ℕ) → ruleset_name name ≡ Ok name
        → ruleset_name (said_name (mark_of values) name) ≡ Ok (said_name (mark_of values) name) }
    ensures short { (values : List LineValue) → 2 ^ length (mark_of values) ≤ max 2 (4 * length values) }
{}
