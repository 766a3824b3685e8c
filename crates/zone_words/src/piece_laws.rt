//! Laws of inputs that come in pieces.
ghost use Rattle.std.specs.{Prelude.{◌≡◌, ◌≢◌, ℕ, ◌≤◌, List, [], ◌∷◌, ◌++◌, true, false, length, take, not}, List.{flat_map, list_all}};
ghost use Rattle.zone_words.specs.{Lines.{is_line_feed, lines_behind, open_behind, whole_lines, open_line}, Runs.{InOrder}, Replies.{Replies, answers}};
ghost use Rattle.zone_outside.specs.Exchanges.{Event, was_read, received, sent};

/// An input is the lines that are whole, each ended by an LF, and then its open line; no LF stands in any of them, and no other lines
/// than these are whole.
pub fn lines_are_the_input()
    ensures whole { (input : List ℕ) → flat_map (λ line. line ++ 10 ∷ []) (whole_lines input) ++ open_line input ≡ input }
    ensures only { (lines : List (List ℕ)) (rest : List ℕ) → list_all (list_all (λ c. not (is_line_feed c))) (rest ∷ lines) ≡ true →
        (whole_lines (flat_map (λ line. line ++ 10 ∷ []) lines ++ rest) ≡ lines) × (open_line (flat_map (λ line. line ++ 10 ∷ []) lines ++ rest) ≡ rest) }
{}

/// The pieces of an input join: what its first bytes make whole and open, and the next behind these, is what both make.
pub fn pieces_join()
    ensures lines { (first then : List ℕ) → whole_lines (first ++ then) ≡ whole_lines first ++ lines_behind (open_line first) then }
    ensures rest { (first then : List ℕ) → open_line (first ++ then) ≡ open_behind (open_line first) then }
    // of an open line the first 4,098 bytes are enough
    ensures held { (replies : Replies) (begun then : List ℕ) → answers replies (lines_behind (take 4098 begun) then) ≡ answers replies (lines_behind begun then) }
{}

/// Where calls were made in order, all that was due of what had been read was written whenever more was read.
pub fn each_read_in_order()
    ensures { (due : List ℕ → List ℕ) (before after : List Event) (bytes : List ℕ) →
        InOrder due [] [] (before ++ was_read bytes ∷ after) → sent before ≡ due (received before) }
{}
