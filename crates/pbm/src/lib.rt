//! Reads and writes bitmaps as PBM images, in the plain form and in the raw form.
//!
//! A reader takes a slice, and returns what it read and the rest of the slice; it copies nothing.
//! `read_source` packs an image as its bytes come, through a window.
#![tactic(auto)]

mod digit_row;
mod front;
mod gap;
mod header;
mod image;
mod laws;
mod number;
mod pieces;
mod plain_word;
mod plain_writer;
mod raster;
mod raw_raster;
mod raw_row;
mod raw_writer;
mod source;
mod taking;
mod window;

pub use image::read_image;
pub use laws::{one_image, plain_text_is_an_image, raw_text_is_an_image, reads_what_is_found};
pub use metric::PbmFault;
pub use pieces::{PIECE, first_piece, next_piece, plain_length};
pub use plain_writer::write_plain;
pub use raw_writer::write_raw;
pub use source::read_source;
pub use window::ImageStop;
