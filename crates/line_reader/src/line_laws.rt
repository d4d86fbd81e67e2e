//! The laws of lines, each a clause of a function that does nothing.
ghost use Rattle.std.specs.Prelude.{◌≡◌, ℕ, List, [], ◌∷◌, ◌++◌, IsTrue};
ghost use Rattle.line_reader.specs.Lines.{lines, is_whole, whole_part, HasNoLineFeed};

/// An input with no bytes has no line.
pub fn lines_of_nothing()
    ensures { lines [] ≡ [] }
{}

/// How some short inputs are cut: the letters are 97 and 98, a carriage return is 13.
pub fn lines_of_short_inputs()
    ensures line_feed { lines (10 ∷ []) ≡ [] ∷ [] }
    ensures unended { lines (97 ∷ []) ≡ (97 ∷ []) ∷ [] }
    ensures ended { lines (97 ∷ 10 ∷ []) ≡ (97 ∷ []) ∷ [] }
    ensures return_dropped { lines (97 ∷ 13 ∷ 10 ∷ []) ≡ (97 ∷ []) ∷ [] }
    ensures return_at_end { lines (97 ∷ 10 ∷ 13 ∷ []) ≡ (97 ∷ []) ∷ [] ∷ [] }
    ensures one_return { lines (97 ∷ 13 ∷ 13 ∷ 10 ∷ []) ≡ (97 ∷ 13 ∷ []) ∷ [] }
    ensures return_inside { lines (97 ∷ 13 ∷ 98 ∷ 10 ∷ []) ≡ (97 ∷ 13 ∷ 98 ∷ []) ∷ [] }
{}

/// After bytes that end with a line feed the lines go on as if these bytes had not been.
pub fn lines_join()
    ensures { (given more : List ℕ) → IsTrue (is_whole given) →
        lines (given ++ more) ≡ lines given ++ lines more }
{}

/// Where two pieces end with a line feed each, so do the two together.
pub fn whole_joins()
    ensures { (given piece : List ℕ) → IsTrue (is_whole given) → IsTrue (is_whole piece) →
        IsTrue (is_whole (given ++ piece)) }
{}

/// After bytes that end with a line feed, the bytes of a line that is not ended do not count towards
/// the part that ends with the last line feed.
pub fn whole_part_of_passed()
    ensures { (given passed : List ℕ) → IsTrue (is_whole given) → HasNoLineFeed passed →
        whole_part (given ++ passed) ≡ given }
{}
