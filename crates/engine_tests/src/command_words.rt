//! The words of the command line, and what they say.

use crate::compare::holds;
use command_line::{AskOptions, DistOptions, Options, ServeOptions, options};
use field::Workers;
use metric::{Edge, MetricKind};

/// The options of `dist` without flags.
const TABLED: DistOptions = DistOptions {
    metric: MetricKind::Euclid2,
    edge: Edge::Open,
    nearest: false,
    query: None,
    workers: Workers { count: 1 },
};

/// The options of `serve` with only the connections given.
const SERVED: ServeOptions = ServeOptions {
    connections: 1000000,
    port: 0,
    blocks: 16384,
    versions: 8,
    log: 100000,
    workers: 4,
    edge: Edge::Open,
};

/// Words, and what they say.
const SAID: [(&[&str], Options<'static>); 13] = [
    (&["clearmap", "dist"], Options::Dist(TABLED)),
    (
        &["clearmap", "dist", "--metric", "city"],
        Options::Dist(DistOptions {
            metric: MetricKind::City,
            ..TABLED
        }),
    ),
    (
        &["clearmap", "dist", "--metric=chess", "--nearest"],
        Options::Dist(DistOptions {
            metric: MetricKind::Chess,
            nearest: true,
            ..TABLED
        }),
    ),
    (
        &["clearmap", "dist", "--nearest", "--workers", "2"],
        Options::Dist(DistOptions {
            nearest: true,
            workers: Workers { count: 2 },
            ..TABLED
        }),
    ),
    (
        &["clearmap", "dist", "--edge", "open", "--metric", "euclid2"],
        Options::Dist(TABLED),
    ),
    (
        &["clearmap", "dist", "--edge", "wall", "--metric", "city"],
        Options::Dist(DistOptions {
            metric: MetricKind::City,
            edge: Edge::Wall,
            ..TABLED
        }),
    ),
    (
        &["clearmap", "dist", "--workers=16"],
        Options::Dist(DistOptions {
            workers: Workers { count: 16 },
            ..TABLED
        }),
    ),
    (
        &["clearmap", "dist", "--query", "AT city 3 4"],
        Options::Dist(DistOptions {
            query: Some("AT city 3 4"),
            ..TABLED
        }),
    ),
    (&["clearmap", "steps"], Options::Steps),
    (
        &["clearmap", "serve", "--connections", "1000000"],
        Options::Serve(SERVED),
    ),
    (
        &[
            "clearmap",
            "serve",
            "--port=65535",
            "--connections=1",
            "--blocks=0",
            "--versions=4294967295",
            "--log",
            "7",
            "--workers",
            "16",
        ],
        Options::Serve(ServeOptions {
            connections: 1,
            port: 65535,
            blocks: 0,
            versions: 4294967295,
            log: 7,
            workers: 16,
            edge: Edge::Open,
        }),
    ),
    (
        &[
            "clearmap",
            "serve",
            "--edge",
            "wall",
            "--connections",
            "1000000",
        ],
        Options::Serve(ServeOptions {
            edge: Edge::Wall,
            ..SERVED
        }),
    ),
    (
        &["clearmap", "ask", "--port", "7400"],
        Options::Ask(AskOptions { port: 7400 }),
    ),
];

/// Whether the words say exactly this.
fn say<R: AllocGlobal>(rt: &R, words: &[&str], want: &Options<'_>) -> bool {
    match options(rt.alloc(), words) {
        Ok(said) => said == *want,
        Err(_) => false,
    }
}

#[test]
fn words_are_read(rt: HostRuntime) {
    for (words, want) in &SAID {
        holds(&rt, say(&rt, words, want), *words);
    }
}
