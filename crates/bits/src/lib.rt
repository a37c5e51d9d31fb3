//! Bitmaps: a size and a set of cells, kept as words of 64 bits.
#![tactic(auto)]

mod band;
mod bitmap;
mod fill;
mod laws;
mod lay;
mod stamp;
mod tile;
mod tile_bits;
mod tile_marks;
mod word;
mod write;

pub use band::marked;
pub use bitmap::Bitmap;
pub use laws::{
    nearest_is_least, one_nearest, tiles_count_all_changes, tiles_fill_their_part,
    words_count_changes,
};
pub use tile_bits::TileBits;
pub use word::{has_bit, low_bits, without_bit};
