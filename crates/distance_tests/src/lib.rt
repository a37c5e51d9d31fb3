//! Tests of the crates that work on maps, where no clause says it: of bitmaps, images, rows and
//! queries.
#![tactic(auto)]

#[cfg(test)]
mod bands;
#[cfg(test)]
mod bitmap_limits;
#[cfg(test)]
mod bitmaps;
#[cfg(test)]
mod blank_bands;
#[cfg(test)]
mod columns;
#[cfg(test)]
mod compact_tables;
#[cfg(test)]
mod compare;
#[cfg(test)]
mod distance_tables;
#[cfg(test)]
mod draws;
#[cfg(test)]
mod gates;
#[cfg(test)]
mod image_limits;
#[cfg(test)]
mod image_sources;
#[cfg(test)]
mod images;
#[cfg(test)]
mod nearest;
#[cfg(test)]
mod obstacle_tables;
#[cfg(test)]
mod phases;
#[cfg(test)]
mod quadrupled;
#[cfg(test)]
mod queries;
#[cfg(test)]
mod raised;
#[cfg(test)]
mod row_answers;
#[cfg(test)]
mod row_bands;
#[cfg(test)]
mod tile_parts;
#[cfg(test)]
mod values;
#[cfg(test)]
mod wall_limits;
#[cfg(test)]
mod walls;
#[cfg(test)]
mod written_images;
