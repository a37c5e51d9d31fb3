//! Laws of a map: its nearest obstacle, counts by tiles, and what filling the words of a tile does
//! to a bitmap.

ghost use Rattle.std.specs.Prelude.{◌≡◌, ℕ, ◌≤◌, ◌-◌, ◌*◌, ◌/◌, ◌%◌, Bool, Option};
ghost use Rattle.std.specs.Option.{option_map};
ghost use Rattle.metric.specs.Nearest.{IsLeastDistance, IsNear};
ghost use Rattle.metric.specs.declared.edge.Edge.{Edge};
ghost use Rattle.metric.specs.declared.near.Near.{Near};
ghost use Rattle.bits.specs.Cells.{Cells, with_values, IsBitmap};
ghost use Rattle.bits.specs.Changes.{changes};
ghost use Rattle.bits.specs.Edges.{IsBlocked};
ghost use Rattle.bits.specs.Words.{words_across};
ghost use Rattle.bits.specs.TileWords.{tile_words, tile_changes, changes_by_tile, words_changed};
ghost use Rattle.bits.specs.TileWords.{filled_words, within_column, within_row, laid};

/// A cell of a map has at most one nearest obstacle: the rule for ties leaves no choice. So any way
/// to find it gives the same answer.
pub fn one_nearest()
    ensures { (distance : ℕ → ℕ → ℕ) (cells : Cells) (edge : Edge) (x y : ℕ) (p q : Option Near)
        → IsNear distance (IsBlocked cells edge) x y p
        → IsNear distance (IsBlocked cells edge) x y q → p ≡ q }
{}

/// The distance of the nearest obstacle is the least distance to an obstacle; where one is none, so
/// is the other.
pub fn nearest_is_least()
    ensures { (distance : ℕ → ℕ → ℕ) (cells : Cells) (edge : Edge) (x y : ℕ) (near : Option Near)
        → IsNear distance (IsBlocked cells edge) x y near
        → IsLeastDistance distance (IsBlocked cells edge) x y (option_map (λ n. n.dist) near) }
{}

/// Counted by rows or by tiles, two bitmaps of the same size differ in the same number of cells.
#[tactic(auto, using(crate::proofs::RegroupLemmas::changes_regrouped))]
pub fn tiles_count_all_changes()
    ensures { (old new : Cells) → IsBitmap old → IsBitmap new → new.width ≡ old.width
        → new.height ≡ old.height
        → changes old new ≡ changes_by_tile old new }
{}

/// Counted on the words of its tile, the same number of cells differ.
#[tactic(auto, using(crate::proofs::TileDrawLemmas::tile_changes_words))]
pub fn words_count_changes()
    ensures { (old new : Cells) (k : ℕ)
        → tile_changes old new k ≡ words_changed (tile_words old k) (tile_words new k) }
{}

/// Filling the part of a picture in each tile, on the words of the tile, lays the picture.
#[tactic(auto, using(crate::proofs::TileDrawLemmas::filled_tile))]
pub fn tiles_fill_their_part()
    ensures { (cells : Cells) (x0 y0 x1 y1 k : ℕ) (value : ℕ → ℕ → Bool) → IsBitmap cells
        → x1 ≤ cells.width → y1 ≤ cells.height
        → filled_words (tile_words cells k) (within_column cells k x0) (within_row cells k y0)
        (within_column cells k x1)
        (within_row cells k y1)
        (laid value (64 * (k % words_across cells.width) - x0)
        (64 * (k / words_across cells.width) - y0)
        (within_column cells k x0) (within_row cells k y0))
        ≡ tile_words (with_values cells x0 y0 x1 y1 value) k }
{}
