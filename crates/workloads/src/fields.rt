//! Distances and nearest obstacles of all cells in memory, also on maps that are hard.

use crate::digest::Digest;
use crate::image::{Image, diagonal, few, rooms, yard};
use crate::random::Random;
use crate::size::Size;
use bits::Bitmap;
use field::{Batch, ObstacleTable, Workers, measure, rows};
use metric::{Chess, City, Edge, Euclid2, Gate, Metric};
use std::alloc::Global;
use std::io;
use std::thread::Threads;

/// A gate that all workers pass.
struct Passing;

impl Gate for Passing {
    fn enter(&self, _band: u8) {}
}

/// The map of an image.
fn map_of(alloc: Global, image: &Image) -> io::Result<Bitmap> {
    match pbm::read_image(alloc, image.bytes.as_slice()) {
        Ok((bitmap, _)) => Ok(bitmap),
        Err(_) => Err(io::Error::from(io::ErrorKind::InvalidData)),
    }
}

/// Takes the distances of all cells.
fn take_distances<M: Metric>(
    alloc: Global,
    map: &Bitmap,
    edge: Edge,
    digest: &mut Digest,
) -> io::Result<()> {
    let cells = usize::from(map.width()) * usize::from(map.height());
    let mut distances = vec![in alloc; 0u32; cells]?;
    let batch = Batch::new(map, edge, 0, map.height());
    if measure::<M>(alloc, &batch, distances.as_mut_slice()).is_ok() {
        for distance in distances.as_slice() {
            digest.number(u64::from(*distance));
        }
    }
    Ok(())
}

/// Takes the nearest obstacles of all cells.
fn take_rows<M: Metric>(alloc: Global, map: &Bitmap, edge: Edge, digest: &mut Digest) {
    let batch = Batch::new(map, edge, 0, map.height());
    if let Ok(nears) = rows::<M>(alloc, &batch) {
        for near in nears.as_slice() {
            digest.near(*near);
        }
    }
}

/// Takes a table of the nearest obstacles of all cells: the distances of its rows, and some
/// obstacles.
fn take_table<M: Metric + Sync, R: Threads + Sync>(
    rt: &R,
    alloc: Global,
    map: &Bitmap,
    edge: Edge,
    digest: &mut Digest,
) -> io::Result<()> {
    let mut line = vec![in alloc; 0u32; usize::from(map.width())]?;
    let Some(workers) = Workers::new(1) else {
        return Ok(());
    };
    let batch = Batch::new(map, edge, 0, map.height());
    if let Ok(table) = ObstacleTable::<M>::of(rt, alloc, &batch, workers, &Passing) {
        for y in 0..map.height() {
            if table.has_row(y) && line.len() == usize::from(table.width()) {
                table.fill_distances(y, line.as_mut_slice());
                for distance in line.as_slice() {
                    digest.number(u64::from(*distance));
                }
            }
            if table.has_row(y) && y < table.width() {
                digest.near(table.near(y, y));
            }
        }
    }
    Ok(())
}

/// Fields of a turned floor plan of this side, by straight distance.
fn take_large<R: Threads + Sync>(
    rt: &R,
    alloc: Global,
    side: u16,
    random: &mut Random,
    digest: &mut Digest,
) -> io::Result<()> {
    let plan = map_of(alloc, &rooms(alloc, side, random)?)?;
    take_distances::<Euclid2>(alloc, &plan, Edge::Open, digest)?;
    take_table::<Euclid2, R>(rt, alloc, &plan, Edge::Wall, digest)
}

/// Fields of a turned floor plan of this side, by each metric.
fn take_plan(alloc: Global, side: u16, random: &mut Random, digest: &mut Digest) -> io::Result<()> {
    let plan = map_of(alloc, &rooms(alloc, side, random)?)?;
    take_rows::<Euclid2>(alloc, &plan, Edge::Open, digest);
    take_distances::<City>(alloc, &plan, Edge::Wall, digest)?;
    take_distances::<Chess>(alloc, &plan, Edge::Open, digest)
}

/// Fields of a diagonal wall.
fn take_diagonal<R: Threads + Sync>(
    rt: &R,
    alloc: Global,
    side: u16,
    random: &mut Random,
    digest: &mut Digest,
) -> io::Result<()> {
    let plan = map_of(alloc, &diagonal(alloc, side, random)?)?;
    take_table::<Euclid2, R>(rt, alloc, &plan, Edge::Open, digest)?;
    take_distances::<City>(alloc, &plan, Edge::Open, digest)
}

/// Fields of a map with few obstacles.
fn take_few<R: Threads + Sync>(
    rt: &R,
    alloc: Global,
    side: u16,
    random: &mut Random,
    digest: &mut Digest,
) -> io::Result<()> {
    let plan = map_of(alloc, &few(alloc, side, random)?)?;
    take_table::<Euclid2, R>(rt, alloc, &plan, Edge::Open, digest)?;
    take_rows::<Chess>(alloc, &plan, Edge::Open, digest);
    Ok(())
}

/// Fields of turned floor plans, and of maps with few obstacles, far from most cells.
pub fn run<R: Threads + Sync>(
    rt: &R,
    alloc: Global,
    size: Size,
    random: &mut Random,
) -> io::Result<u64> {
    let mut digest = Digest::new();
    take_large(rt, alloc, size.large, random, &mut digest)?;
    take_plan(alloc, size.middle, random, &mut digest)?;
    let plan = map_of(alloc, &yard(alloc, size.large, random)?)?;
    take_distances::<Euclid2>(alloc, &plan, Edge::Open, &mut digest)?;
    take_diagonal(rt, alloc, size.middle, random, &mut digest)?;
    take_few(rt, alloc, size.middle, random, &mut digest)?;
    Ok(digest.value())
}
