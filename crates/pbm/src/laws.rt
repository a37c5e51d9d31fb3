//! Laws of the format: how the first fault from the front and the written texts relate to the
//! grammar.

ghost use Rattle.std.specs.Prelude.{◌≡◌, ℕ, ◌-◌, List, [], ◌∷◌, ◌++◌, length, Ok};
ghost use Rattle.bits.specs.Cells.{Cells, IsBitmap};
ghost use Rattle.pbm.specs.Faults.{image};
ghost use Rattle.pbm.specs.Image.{IsPlain, IsRaw, Reads};
ghost use Rattle.pbm.specs.Writing.{plain_text, raw_text};

/// At most one image starts at the front of given bytes, and it takes a fixed number of them.
pub fn one_image()
    ensures { (bytes : List ℕ) (m n : ℕ) (a b : Cells) → Reads bytes m a → Reads bytes n b → (m ≡ n)
        × (a ≡ b) }
{}

/// The fault table finds an image exactly where the grammar has one, and leaves the bytes after it.
pub fn reads_what_is_found()
    ensures found { (bytes rest : List ℕ) (cells : Cells) → image bytes ≡ Ok (cells, rest)
        → (read : Reads bytes (length bytes - length rest) cells) × (read.rest ≡ rest) }
    ensures read { (bytes : List ℕ) (n : ℕ) (cells : Cells) (read : Reads bytes n cells)
        → image bytes ≡ Ok (cells, read.rest) }
{}

/// The raw text of a bitmap is a raw image of it.
pub fn raw_text_is_an_image()
    ensures { (cells : Cells) → IsBitmap cells → IsRaw (raw_text cells) cells }
{}

/// The plain text of a bitmap is a plain image of it, followed by LF.
pub fn plain_text_is_an_image()
    ensures { (cells : Cells) → IsBitmap cells → (text : List ℕ)
        × (plain_text cells ≡ text ++ 10 ∷ []) × IsPlain text cells }
{}
