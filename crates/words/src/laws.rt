//! Laws of lines: how the words of a line relate to its bytes.

ghost use Rattle.std.specs.Prelude.{◌≡◌, ℕ, List, ◌∷◌, All};
ghost use Rattle.std.specs.List.{join_with_byte};
ghost use Rattle.words.specs.Words.{words, IsWord};

/// The words of a line, joined by single blanks, are the line, and none of them contains a blank.
pub fn words_of_line()
    ensures joined { (bytes : List ℕ) → join_with_byte 32 (words bytes) ≡ bytes }
    ensures plain { (bytes : List ℕ) → All IsWord (words bytes) }
{}

/// One or more words are the words of the line that joins them by single blanks.
pub fn line_of_words()
    ensures { (word : List ℕ) (others : List (List ℕ)) → All IsWord (word ∷ others)
        → words (join_with_byte 32 (word ∷ others)) ≡ word ∷ others }
{}
