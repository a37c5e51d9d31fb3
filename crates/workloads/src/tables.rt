//! Tables of whole maps as text, as `dist` writes them.

use crate::digest::Digest;
use crate::image::{Image, rooms};
use crate::link::Link;
use crate::random::Random;
use crate::size::Size;
use command_line::DistOptions;
use engines::dist_run;
use field::Workers;
use metric::{Edge, MetricKind};
use std::alloc::Global;
use std::io;
use std::thread::Threads;

/// What each table is of.
const EUCLID2: DistOptions<'static> = DistOptions {
    metric: MetricKind::Euclid2,
    edge: Edge::Open,
    nearest: false,
    query: None,
    workers: Workers { count: 1 },
};

/// The same with obstacles.
const NEAREST: DistOptions<'static> = DistOptions {
    metric: MetricKind::Euclid2,
    edge: Edge::Open,
    nearest: true,
    query: None,
    workers: Workers { count: 1 },
};

/// By city-block distance.
const CITY: DistOptions<'static> = DistOptions {
    metric: MetricKind::City,
    edge: Edge::Open,
    nearest: false,
    query: None,
    workers: Workers { count: 1 },
};

/// By chessboard distance, with a wall round the map.
const CHESS: DistOptions<'static> = DistOptions {
    metric: MetricKind::Chess,
    edge: Edge::Wall,
    nearest: false,
    query: None,
    workers: Workers { count: 1 },
};

/// Takes the text of a table.
pub fn take_table<R: Threads + Sync>(
    rt: &R,
    alloc: Global,
    options: &DistOptions<'_>,
    image: &[u8],
    digest: &mut Digest,
) {
    let mut reader = Link::new(image);
    let mut writer = Digest::new();
    let status = dist_run(rt, alloc, options, &mut reader, &mut writer);
    digest.number(writer.value());
    digest.number(u64::from(status));
}

/// Takes the tables of turned floor plans of this side.
fn take_plans<R: Threads + Sync>(
    rt: &R,
    alloc: Global,
    side: u16,
    all: &[DistOptions<'_>],
    random: &mut Random,
    digest: &mut Digest,
) -> io::Result<()> {
    let mut image = rooms(alloc, side, random)?;
    for options in all {
        image.draw_some_box(random);
        take_table(rt, alloc, options, image.bytes.as_slice(), digest);
    }
    Ok(())
}

/// Tables of large maps mostly by the square of the straight distance, and of smaller ones.
pub fn run<R: Threads + Sync>(
    rt: &R,
    alloc: Global,
    size: Size,
    random: &mut Random,
) -> io::Result<u64> {
    let mut digest = Digest::new();
    let (large, small) = (size.large, size.small);
    take_plans(rt, alloc, large, &[EUCLID2, NEAREST], random, &mut digest)?;
    take_plans(rt, alloc, large, &[EUCLID2, CITY], random, &mut digest)?;
    take_plans(
        rt,
        alloc,
        size.middle,
        &[EUCLID2, NEAREST, CHESS],
        random,
        &mut digest,
    )?;
    for _ in 0..size.count(6) {
        take_plans(rt, alloc, small, &[EUCLID2, EUCLID2], random, &mut digest)?;
    }
    Ok(digest.value())
}
