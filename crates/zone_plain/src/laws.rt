//! Laws of what is written, and of what `%z` becomes.
ghost use Rattle.std.specs.Prelude.{◌≡◌, ◌≤◌, ◌++◌, ℕ, All, List, Ok, length, option_and_then, true, ◌<◌, ◌^◌, ◌+ℤ◌, ℤ, [], Some, codes, map, reverse, slice_index_or, false};
ghost use Rattle.zone_table.specs.{Values.{LineValue, InfoValue, multiple, space}, Seconds.{seconds_of}, Joined.{rules_of}};
ghost use Rattle.zone_plain.specs.{Needs.{IsPlain, has_zones_as_targets}, Heads.{head_of}, Kept.{HasNoOffsets}, LineValues.{meant_in}, Named.{IsSaidAsMeant}, Plain.{plain_of}, Rebuilt.{IsRebuilt}, Written.{written}, Declares.{has_zone, target_of}};
ghost use Rattle.zone_plain.specs.{Leads.{zone_behind}, Settled.{settled}, Abbreviations.{IsNamedUnder, info_in, named_total, own_abbreviation, own_saving}, Formats.{around, around_mark}, Made.{made_info, name_in}, MadeNames.{made_name}};
ghost use Rattle.zone_plain.specs.{OffsetTexts.{offset_text}, Pairs.{Pair, is_among, pairs_of}, WrittenOut.{written_out}};
ghost use Rattle.zone_plain_lines.specs.{Columns.{is_format}, Renamed.{mark_of}};

/// Of a source that needs nothing and whose rulesets have names that RULES can say each rule, each line of a zone and each link is
/// written, as it was meant, under the source's own names and in the order of its part, behind the line of its release, if it names one,
/// and nothing else.
pub fn plain_is_kept()
    ensures { (source head : List ℕ) (meant : List LineValue) → head_of source ≡ Ok head → meant_in source ≡ Ok meant
        → All IsSaidAsMeant meant → IsPlain meant → HasNoOffsets meant → length (head ++ written meant) ≤ 16_777_216
        → plain_of source ≡ Ok (head ++ written meant) }
{}

/// What is written of a source is written of what its lines mean, with its rulesets by names that RULES can say, each link led to its
/// zone and `%z` written out. Each line that is written is UTF-8, and `LineParser::parse_str` reads it as what is meant. A source of
/// what is written names the release that the source names, and has these lines, the rules, then the zones, then the links, each in their
/// order, and nothing else; and every name finds in it the rules, the zone's lines and the link's target that it finds in what is meant.
pub fn written_is_read()
    ensures { (source bytes : List ℕ) → plain_of source ≡ Ok bytes → IsRebuilt source bytes }
{}

/// A plain form is its own plain form: what is written of what was written of a source is the same, byte for byte.
pub fn its_own()
    ensures { (source bytes : List ℕ) → plain_of source ≡ Ok bytes → plain_of bytes ≡ Ok bytes }
{}

/// Where a source isn't refused, it has the zones that it had; each name of a link has the zone behind its target as target; and the
/// target of each link is one of the zones: no link to a link is left.
pub fn settled_links()
    ensures zones { (values out : List LineValue) → settled values ≡ Ok out → (name : List ℕ) → has_zone out name ≡ has_zone values name }
    ensures names { (values out : List LineValue) → settled values ≡ Ok out → (name : List ℕ)
        → target_of out name ≡ option_and_then (zone_behind values) (target_of values name) }
    ensures targets { (values out : List LineValue) → settled values ≡ Ok out → has_zones_as_targets out ≡ true }
{}

/// A source that needs nothing stays as it is: each RULES names a ruleset that has a rule, no two zones have one name, and each link
/// leads to a zone, under a name that neither a zone nor an earlier link has.
pub fn plain_stays()
    ensures { (values : List LineValue) → IsPlain values → settled values ≡ Ok values }
{}

/// Where a source's lines are written out, a table of them has under the name that is made for a ruleset and an offset the rules of that
/// ruleset, in their order, each at the same times with the same saving; and the letters of each are the text of the offset with its
/// saving.
pub fn made_rulesets()
    ensures { (values out : List LineValue) (pair : Pair) → written_out values ≡ Ok out → is_among pair (pairs_of values) ≡ true
        → length (pairs_of values) < 2 ^ 64
        → rules_of (reverse out) (name_in values pair) ≡ map (made_info pair.offset) (rules_of (reverse values) pair.rules) }
{}

/// No table of a source has a ruleset of a name that is made for it, and two numbers give two names.
pub fn made_names()
    ensures new { (values : List LineValue) (number : ℕ) → rules_of (reverse values) (made_name (mark_of values) number) ≡ [] }
    ensures one { (mark : List ℕ) (m n : ℕ) → m < 2 ^ 64 → n < 2 ^ 64 → made_name mark m ≡ made_name mark n → m ≡ n }
{}

/// Where a source's lines are written out, an abbreviation of a line with `%z` is FORMAT with the text of its own total in place of
/// `%z`: under a ruleset, by each rule of the ruleset that is made for it, the text of STDOFF and SAVE, and without one that of STDOFF
/// and the amount in RULES. The abbreviation is the one that a table of zones has of the line that is written.
pub fn abbreviations()
    ensures parts { (format before after : List ℕ) → around_mark format ≡ Some (around before after) → format ≡ (before ++ codes "%z") ++ after }
    ensures under { (values out : List LineValue) (place : ℕ) (info : InfoValue) (rules before after : List ℕ)
        → written_out values ≡ Ok out → length (pairs_of values) < 2 ^ 64 → place < length values
        → info_in (slice_index_or values place space) ≡ Some info → info.saving ≡ multiple rules
        → is_format true info.format ≡ true → around_mark info.format ≡ Some (around before after)
        → IsNamedUnder values out (seconds_of info.utc_offset) rules before after (slice_index_or out place space) }
    ensures own { (values out : List LineValue) (place : ℕ) (info : InfoValue) (saving : ℤ) (before after : List ℕ)
        → written_out values ≡ Ok out → place < length values
        → info_in (slice_index_or values place space) ≡ Some info → own_saving info.saving ≡ Some saving
        → is_format false info.format ≡ true → around_mark info.format ≡ Some (around before after)
        → own_abbreviation saving (slice_index_or out place space) ≡ Some (named_total before after (seconds_of info.utc_offset +ℤ saving)) }
{}

/// Two totals have one text only where they are one.
pub fn one_total()
    ensures { (a b : ℤ) → offset_text a ≡ offset_text b → a ≡ b }
{}
