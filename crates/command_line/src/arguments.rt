//! What the command line can say.

ghost use Rattle.std.specs.Prelude.{◌≡◌};
ghost use Rattle.command_line.specs.ServeLine.{setting_served};

use clap::Error as ClapError;
use clap::error::ErrorKind;
use events::Setting;
use metric::{Edge, MetricKind, NoMemory, Workers};
use std::io;
use thiserror::Error;

/// What the program shall do.
#[derive(Clone, Copy, PartialEq, Eq)]
pub enum Options<'a> {
    /// Answer an image.
    Dist(DistOptions<'a>),
    /// Do the events of a text.
    Steps,
    /// Serve a map to connections.
    Serve(ServeOptions),
    /// Send lines to a server.
    Ask(AskOptions),
}

/// The options of `dist`.
#[derive(Clone, Copy, PartialEq, Eq)]
pub struct DistOptions<'a> {
    /// The metric.
    pub metric: MetricKind,
    /// The edge of the image.
    pub edge: Edge,
    /// Whether each entry includes its nearest obstacle.
    pub nearest: bool,
    /// The line to answer instead of the whole table.
    pub query: Option<&'a str>,
    /// The workers that share the rows of the table.
    pub workers: Workers,
}

/// The options of `serve`.
#[derive(Clone, Copy, PartialEq, Eq)]
pub struct ServeOptions {
    /// How many connections it serves before the run ends, 1 to 1,000,000.
    pub connections: u32,
    /// The port to listen on; 0 lets the system choose one.
    pub port: u16,
    /// The number of blocks of the store.
    pub blocks: u32,
    /// The most versions it keeps.
    pub versions: u32,
    /// The most commands accepted between two checkpoints.
    pub log: u32,
    /// How many connections it serves at once, 1 to 16.
    pub workers: u32,
    /// The edge of the map.
    pub edge: Edge,
}

impl ServeOptions {
    /// The setting of the store that is served: a session for each worker.
    pub fn setting(&self) -> Setting
        ensures { result ≡ setting_served self.now }
    {
        Setting {
            blocks: self.blocks,
            versions: self.versions,
            sessions: self.workers,
            log: self.log,
            edge: self.edge,
        }
    }
}

/// The options of `ask`.
#[derive(Clone, Copy, PartialEq, Eq)]
pub struct AskOptions {
    /// The port of the server, from 1.
    pub port: u16,
}

/// Why the words don't name a command to run.
#[derive(Debug, Drop, Error)]
pub enum Fault<'a> {
    /// A mistake in the words, or a request for help or the version.
    #[error("{0}")]
    Words(ClapError),
    /// `--metric` names no metric.
    #[error("--metric is one of euclid2, city and chess, not '{name}'")]
    UnknownMetric {
        name: &'a str,
    },
    /// `--edge` names no edge.
    #[error("--edge is one of open and wall, not '{name}'")]
    UnknownEdge {
        name: &'a str,
    },
    /// The value of a flag isn't a number in its range.
    #[error("--{name} is a number from {least} to {most}")]
    BadNumber {
        name: &'static str,
        least: u32,
        most: u32,
    },
    /// No command was named.
    #[error("no command was named")]
    NoCommand,
    /// The process's words couldn't be read, for example because they aren't UTF-8.
    #[error("the command line can't be read: {0}")]
    Unreadable(io::Error),
    /// There was no memory to read the words.
    #[error("no memory to read the command line")]
    Memory,
}

impl From<NoMemory> for Fault<'_> {
    ghost use Rattle.command_line.specs.declared.arguments.Fault.TheVariants.{Memory};

    ghost from_gives = { λ _ fault. fault ≡ Memory };

    fn from(_refused: NoMemory) -> Self {
        Fault::Memory
    }
}

impl From<io::Error> for Fault<'_> {
    fn from(error: io::Error) -> Self {
        match error.kind() {
            io::ErrorKind::OutOfMemory => Fault::Memory,
            _ => Fault::Unreadable(error),
        }
    }
}

impl From<ClapError> for Fault<'_> {
    ghost use Rattle.command_line.specs.CommandLine.{IsFaultOf};

    ghost from_gives = { IsFaultOf };

    fn from(error: ClapError) -> Self {
        match error.kind() {
            ErrorKind::OutOfMemory => Fault::Memory,
            _ => Fault::Words(error),
        }
    }
}
