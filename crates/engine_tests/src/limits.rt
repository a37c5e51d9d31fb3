//! Worked rows on images high enough for lines to be carried from row to row, up to the highest,
//! images of about as many rows as are written at once, and one whose rows threads share.

ghost use Rattle.std.specs.Prelude.{◌<◌};

use crate::compare::same;
use command_line::DistOptions;
use engines::dist_run;
use field::Workers;
use memory_streams::{MemorySink, MemorySource};
use metric::{Edge, MetricKind, Sink};
use std::alloc::Global;
use std::process::Abort;
use std::test::Fail;
use std::thread::Threads;

/// What is written for an image, with status 0.
fn written<R: Abort + AllocGlobal + Threads + Sync>(
    rt: &R,
    options: &DistOptions<'_>,
    image: &[u8],
) -> MemorySink {
    let mut reader = MemorySource::new(image);
    let mut writer = MemorySink::new(rt.alloc());
    let status = dist_run(rt, rt.alloc(), options, &mut reader, &mut writer);
    same(rt, status, 0, "status");
    writer
}

/// The distance of a cell to the obstacle `(0, 0)`, by each metric.
fn distance(metric: MetricKind, x: u32, y: u32) -> u32
    requires { (x < 4096) × (y < 4096) }
{
    match metric {
        MetricKind::Euclid2 => x * x + y * y,
        MetricKind::City => x + y,
        MetricKind::Chess => x.max(y),
    }
}

/// A plain image with this many rows of three cells, whose only obstacle is the first cell.
fn column_image(alloc: Global, height: u32) -> Result<String, Fail> {
    let mut image = format!(in alloc; "P1\n3 {height}\n1")?;
    for _ in 1..3 * height.min(4096) {
        image.push('0')?;
    }
    Ok(image)
}

#[test]
fn images_of_many_rows(rt: HostRuntime) -> Result<(), Fail> {
    for height in [32, 33, 64, 4096] {
        let image = column_image(rt.alloc(), height)?;
        for (metric, workers) in [
            (MetricKind::Euclid2, Workers { count: 1 }),
            (MetricKind::City, Workers { count: 3 }),
            (MetricKind::Chess, Workers { count: 16 }),
        ] {
            let options = DistOptions {
                metric,
                edge: Edge::Open,
                nearest: true,
                query: None,
                workers,
            };
            let writer = written(&rt, &options, image.as_bytes());
            let mut want = String::new(rt.alloc());
            for y in 0..height {
                for (x, end) in [(0, ' '), (1, ' '), (2, '\n')] {
                    assert!(rt; y < 4096);
                    let far = distance(metric, x, y);
                    want.push_str(format!(in rt.alloc(); "{far}/0/0{end}")?.as_str())?;
                }
            }
            same(&rt, writer.bytes(), want.as_bytes(), ("rows", height));
        }
    }
    Ok(())
}

/// A plain image with this many rows of seven cells, of which some are obstacles.
fn spotted_image(alloc: Global, height: u32) -> Result<String, Fail> {
    let mut image = format!(in alloc; "P1\n7 {height}\n")?;
    for cell in 0..7 * height.min(4096) {
        let spot = cell % 11 == 5 || cell % 29 == 0;
        image.push(if spot { '1' } else { '0' })?;
    }
    Ok(image)
}

#[test]
fn one_worker_writes_what_several_do(rt: HostRuntime) -> Result<(), Fail> {
    for height in [1, 15, 16, 17, 33] {
        let image = spotted_image(rt.alloc(), height)?;
        for metric in [MetricKind::Euclid2, MetricKind::City, MetricKind::Chess] {
            for (edge, nearest) in [
                (Edge::Open, false),
                (Edge::Open, true),
                (Edge::Wall, false),
                (Edge::Wall, true),
            ] {
                let one = DistOptions {
                    metric,
                    edge,
                    nearest,
                    query: None,
                    workers: Workers { count: 1 },
                };
                let several = DistOptions {
                    workers: Workers { count: 3 },
                    ..one
                };
                let alone = written(&rt, &one, image.as_bytes());
                let shared = written(&rt, &several, image.as_bytes());
                same(&rt, alone.bytes(), shared.bytes(), ("rows", height));
            }
        }
    }
    Ok(())
}

#[test]
fn a_failed_write_beside_threads_ends_the_run(rt: HostRuntime) -> Result<(), Fail> {
    // In each of four turns four workers write 64 rows each, and then all is flushed. A failing
    // write leaves half of its lines, of which each has 8,192 bytes.
    let mut image = Vec::from_slice(rt.alloc(), b"P4\n4096 1024\n")?;
    image.resize(image.len() + 1024 * 512, 0)?;
    for (call, rows) in [(1, 32), (2, 96), (5, 288), (8, 480), (16, 992), (17, 1024)] {
        let options = DistOptions {
            metric: MetricKind::Euclid2,
            edge: Edge::Open,
            nearest: true,
            query: None,
            workers: Workers { count: 4 },
        };
        let mut reader = MemorySource::new(image.as_slice());
        let mut writer = MemorySink::new(rt.alloc()).failing_at(call);
        let status = dist_run(&rt, rt.alloc(), &options, &mut reader, &mut writer);
        let seen = (status, writer.failed_writes(), writer.bytes().len());
        same(&rt, seen, (1, 1, rows * 8192), ("at call", call));
    }
    Ok(())
}
